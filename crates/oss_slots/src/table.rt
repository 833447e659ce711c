//! All slots of a task: a map from cells to homes, and one table of values.

ghost use Rattle.std.specs.Prelude.{◌≡◌, ◌++◌, ◌-◌, true, is_some, None, Some, OnErr, OnOk, replicate};
ghost use Rattle.oss_ranges.specs.Cells.{value_at};
ghost use Rattle.oss_slots.specs.Slots.{Adds, Changes, HasSlot, SameSlots, emptied, folded, none, slot_at, value_in};

use crate::home::Home;
use crate::operators::{combined, neutral};
use oss_ranges::RangeMap;
use oss_syntax::{Op, Range};
use std::alloc::{AllocError, Global};
use std::marker::Model;

/// The private slots of a task's reductions. Contracts see for each cell the slot that it has, if any: its
/// operator, and its value.
pub struct Slots {
    /// Where the slot of each cell is.
    homes: RangeMap<Home>,
    /// The values of all slots. That of a slot which was replaced stays here, and is not read any more.
    values: Vec<u64>,
}

// By hand, so that who lets one go calls this, and does not take it apart at each exit.
impl Drop for Slots {
    fn drop(self) {
        let Slots { homes, values } = self;
        drop(homes);
        drop(values);
    }
}

impl Model for Slots {
    ghost use Rattle.oss_slots.specs.Slots.{IsHoused, Kept};

    ghost Value = { Kept };

    ghost view = { λ s. record { homes = s.homes.pieces; values = s.values.items } };

    ghost invariant = { λ s. IsHoused s.homes.pieces s.values.items };
}

impl Slots {
    /// No cell has a slot. It takes no memory.
    pub fn new(alloc: Global) -> Slots
        ensures { SameSlots result none }
    {
        Slots {
            homes: RangeMap::new(alloc),
            values: Vec::new(alloc),
        }
    }

    /// Gives each cell of a range a slot for this operator, with its neutral value. A cell that had a slot gets
    /// a new one. It costs the cells of the range. After want of memory the slots are as they were.
    pub fn add(&mut self, range: Range, op: Op) -> Result<(), AllocError>
        ensures added { OnOk result (Adds range.lo range.hi op self.old self.new) }
        ensures refused { OnErr result (SameSlots self.new self.old) }
    {
        let first = self.values.len();
        self.homes.reserve(1)?;
        fill(&mut self.values, range.hi - range.lo, neutral(op))?;
        self.homes.assign(
            range,
            Home {
                op,
                lo: range.lo,
                first,
            },
        )
    }

    /// Whether a cell has a slot. It takes no memory.
    pub fn has(&self, cell: u32) -> bool
        ensures { result ≡ is_some (slot_at self.now cell) }
    {
        self.homes.get(cell).is_some()
    }

    /// Folds a value into the slot of a cell, by the operator of the slot. Condition: the cell has a slot. It
    /// takes no memory.
    pub fn fold(&mut self, cell: u32, value: u64)
        requires { HasSlot self.old cell }
        ensures { Changes cell (folded value) self.old self.new }
    {
        let home = home_of(&self.homes, cell);
        let place = home.place(cell);
        self.values[place] = combined(home.op, self.values[place], value);
    }

    /// The value of the slot of a cell: the fold of all values since the slot was added or last taken from. The
    /// slot is then as it was when it was added. Condition: the cell has a slot. It takes no memory.
    pub fn take(&mut self, cell: u32) -> u64
        requires { HasSlot self.old cell }
        ensures value { value_in self.old cell ≡ Some result }
        ensures slots { Changes cell emptied self.old self.new }
    {
        let home = home_of(&self.homes, cell);
        let place = home.place(cell);
        let value = self.values[place];
        self.values[place] = neutral(home.op);
        value
    }

    /// The value that `take` would give. Condition: the cell has a slot. It takes no memory.
    pub fn value(&self, cell: u32) -> u64
        requires { HasSlot self.now cell }
        ensures { value_in self.now cell ≡ Some result }
    {
        let home = home_of(&self.homes, cell);
        self.values[home.place(cell)]
    }
}

/// Where the value of a cell stands that has a slot.
fn home_of(homes: &RangeMap<Home>, cell: u32) -> Home
    requires { is_some (value_at homes.now.pieces cell) ≡ true }
    ensures { value_at homes.now.pieces cell ≡ Some result }
{
    match homes.get(cell) {
        Some(home) => home,
        None => unreachable!(),
    }
}

/// Puts a value so many times behind the others. After want of memory they are as they were.
fn fill(values: &mut Vec<u64>, count: u32, value: u64) -> Result<(), AllocError>
    ensures filled { OnOk result (values.new.items ≡ values.old.items ++ replicate count value) }
    ensures refused { OnErr result (values.new.items ≡ values.old.items) }
{
    values.resize(values.len() + count as usize, value)
}
