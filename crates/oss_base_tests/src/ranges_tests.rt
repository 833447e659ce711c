//! What no clause says: that a map and a plain vector of cells answer alike over many calls, and that each call
//! answers with ample memory.

ghost use Rattle.std.specs.Prelude.{◌<◌};

use oss_ranges::RangeMap;
use oss_syntax::Range;
use std::alloc::{AllocError, Global};
use std::process::Abort;
use std::test::Fail;

/// How many cells are compared.
const CELLS: u32 = 96;

/// Numbers that look random, and are the same at each run.
#[derive(Drop)]
struct Random {
    state: u64,
}

impl Random {
    /// The next number, below this bound.
    fn below(&mut self, bound: u32) -> u32
        requires { 0 < bound }
        ensures { result < bound }
    {
        self.state = self
            .state
            .wrapping_mul(6_364_136_223_846_793_005)
            .wrapping_add(1_442_695_040_888_963_407);
        ((self.state >> 33) % bound as u64) as u32
    }

    /// The next range, of one cell or more.
    fn range(&mut self) -> Range {
        let lo = self.below(CELLS);
        let hi = lo + 1 + self.below(CELLS - lo);
        Range { lo, hi }
    }
}

/// A map, and the values of its cells one by one.
#[derive(Drop)]
struct Twins {
    map: RangeMap<u8>,
    cells: Vec<Option<u8>>,
}

impl Twins {
    /// No cell has a value.
    fn new(alloc: Global) -> Result<Twins, AllocError> {
        let mut cells = Vec::new(alloc);
        for _ in 0..CELLS {
            match cells.push(None) {
                Ok(()) => {}
                Err(full) => return Err(AllocError::from(full)),
            }
        }
        Ok(Twins {
            map: RangeMap::new(alloc),
            cells,
        })
    }

    /// Changes both alike. Want of memory is the one error.
    fn set(&mut self, range: Range, value: Option<u8>) -> Result<(), AllocError> {
        match value {
            Some(value) => self.map.assign(range, value)?,
            None => self.map.clear(range)?,
        }
        let mut place = 0u32;
        for cell in self.cells.iter_mut() {
            if range.lo <= place && place < range.hi {
                *cell = value;
            }
            place = place.saturating_add(1);
        }
        Ok(())
    }

    /// Takes the values of the cells from this one on away, in both alike.
    fn truncate(&mut self, cells: u32) -> Result<(), AllocError> {
        self.map.truncate(cells)?;
        let mut place = 0u32;
        for cell in self.cells.iter_mut() {
            if cells <= place {
                *cell = None;
            }
            place = place.saturating_add(1);
        }
        Ok(())
    }

    /// Puts a copy in place of the map.
    fn copy_map(&mut self) -> Result<(), AllocError> {
        let copy = self.map.copy()?;
        self.map = copy;
        Ok(())
    }
}

/// The values of all cells agree, one by one and as they are told by the pieces.
fn assert_alike(rt: &impl Abort, twins: &Twins, range: Range) {
    let mut place = 0u32;
    for cell in twins.cells.iter() {
        assert_eq!(rt; twins.map.get(place), *cell);
        place = place.saturating_add(1);
    }
    let mut front = range.lo;
    for (part, value) in twins.map.over(range) {
        assert!(rt; front <= part.lo && part.hi <= range.hi);
        for cell in front..part.lo {
            assert_eq!(rt; twins.map.get(cell), None);
        }
        for cell in part.lo..part.hi {
            assert_eq!(rt; twins.map.get(cell), Some(value));
        }
        front = part.hi;
    }
    for cell in front..range.hi {
        assert_eq!(rt; twins.map.get(cell), None);
    }
}

/// So many calls, which change both alike, each with a look at all cells.
fn change_at_random(rt: &impl Abort, twins: &mut Twins, calls: u32) -> Result<(), AllocError> {
    let mut random = Random { state: 7 };
    for _ in 0..calls {
        let range = random.range();
        match random.below(8) {
            0 => twins.map.merge_same(),
            1 => twins.map.split_at(range.lo)?,
            2 => twins.map.join_at(range.lo),
            3 => twins.set(range, None)?,
            _ => {
                let value = random.below(3);
                twins.set(range, Some(value as u8))?;
            }
        }
        assert_alike(rt, twins, range);
    }
    Ok(())
}

#[test]
fn a_map_answers_like_a_vector_of_cells(rt: HostRuntime) -> Result<(), Fail> {
    let mut twins = Twins::new(rt.alloc())?;
    change_at_random(&rt, &mut twins, 10_000)?;
    Ok(())
}

/// The same where room is made for so many pieces that the map is a tree from the first on.
#[test]
fn a_map_with_much_room_answers_like_a_vector_of_cells(rt: HostRuntime) -> Result<(), Fail> {
    let mut twins = Twins::new(rt.alloc())?;
    twins.map.reserve(100)?;
    change_at_random(&rt, &mut twins, 2_000)?;
    Ok(())
}

/// Each cell becomes a piece of its own, which is more than a list takes. Then every second one goes, and then the
/// last ones, until none is left; and the map, or a copy of it, can be filled again.
#[test]
fn a_map_of_many_pieces_answers_alike_there_and_back(rt: HostRuntime) -> Result<(), Fail> {
    let all = Range { lo: 0, hi: CELLS };
    let mut twins = Twins::new(rt.alloc())?;
    for round in 0..3u32 {
        for cell in 0..CELLS {
            let value = cell.wrapping_add(round) % 3;
            let single = Range {
                lo: cell,
                hi: cell + 1,
            };
            twins.set(single, Some(value as u8))?;
            assert_alike(&rt, &twins, all);
        }
        for half in 0..CELLS / 2 {
            let single = Range {
                lo: half * 2,
                hi: half * 2 + 1,
            };
            twins.set(single, None)?;
            assert_alike(&rt, &twins, all);
        }
        twins.copy_map()?;
        for less in 0..CELLS {
            twins.truncate(CELLS - less)?;
            assert_alike(&rt, &twins, all);
        }
        twins.truncate(0)?;
        assert_alike(&rt, &twins, all);
        twins.copy_map()?;
    }
    Ok(())
}
