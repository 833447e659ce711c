//! How sets of cells of `long x, a[10], m[3][4], b[1];` are written: the texts are those of the definition's
//! worked examples, and others that were worked by hand from it.

ghost use Rattle.std.specs.Prelude.{◌≡◌, ◌≤◌, ◌<◌, IfOk};
ghost use Rattle.oss_grammar.specs.Layout.{cells_in};

use oss_pieces::{CellSet, Globals, add_cell_name, add_cell_name_among, add_pieces, pieces};
use oss_syntax::{GlobalDef, Item, List, Name, NumKind, Program, Range};
use std::alloc::{AllocError, Global};
use std::process::Abort;
use std::test::Fail;

/// A global.
fn global(
    alloc: Global,
    name: &[u8],
    cells: Option<u64>,
    columns: Option<u64>,
) -> Result<GlobalDef, AllocError>
    ensures { IfOk result (λ global. global.cells ≡ cells) }
{
    Ok(GlobalDef {
        name: Name::from_slice(alloc, name)?,
        kind: NumKind::Long,
        cells,
        columns,
        first: 0,
        line: 1,
    })
}

/// The globals `x`, `a`, `m` and `b`.
fn layout(alloc: Global) -> Result<Program, AllocError>
    ensures { IfOk result (λ program. cells_in program.items ≤ 1048576) }
{
    let mut items = List::new(alloc);
    items.push(Item::Global(global(alloc, b"x", None, None)?))?;
    items.push(Item::Global(global(alloc, b"a", Some(10), None)?))?;
    items.push(Item::Global(global(alloc, b"m", Some(12), Some(4))?))?;
    items.push(Item::Global(global(alloc, b"b", Some(1), None)?))?;
    Ok(Program { items })
}

/// The set of the cells of these ranges, as pairs of their ends.
fn set_of(rt: &impl Abort, alloc: Global, ranges: &[(u32, u32)]) -> Result<CellSet, AllocError> {
    let mut set = CellSet::new(alloc);
    for (lo, hi) in ranges {
        assert!(rt; *lo < *hi && *hi <= 1_048_576);
        set.add(Range { lo: *lo, hi: *hi })?;
    }
    Ok(set)
}

/// The cells of these ranges are written so, with so many pieces at most.
fn assert_pieces(
    rt: &impl Abort,
    alloc: Global,
    ranges: &[(u32, u32)],
    most: usize,
    wanted: &[u8],
) -> Result<(), Fail> {
    let program = layout(alloc)?;
    let set = set_of(rt, alloc, ranges)?;
    let found = pieces(alloc, &program, &set)?;
    let mut text = Vec::new(alloc);
    add_pieces(alloc, &program, found.as_slice(), most, &mut text)?;
    assert!(rt; text.as_slice() == wanted);
    Ok(())
}

#[test]
fn sets_are_written_as_pieces(rt: HostRuntime) -> Result<(), Fail> {
    let alloc = rt.alloc();
    assert_pieces(&rt, alloc, &[], 8, b"")?;
    assert_pieces(&rt, alloc, &[(0, 1)], 8, b"x")?;
    assert_pieces(&rt, alloc, &[(1, 11)], 8, b"a")?;
    assert_pieces(&rt, alloc, &[(1, 5)], 8, b"a[0:3]")?;
    assert_pieces(&rt, alloc, &[(4, 5)], 8, b"a[3]")?;
    assert_pieces(&rt, alloc, &[(12, 14), (16, 18)], 8, b"m[0:1][1:2]")?;
    assert_pieces(&rt, alloc, &[(19, 23)], 8, b"m[2]")?;
    assert_pieces(&rt, alloc, &[(15, 23)], 8, b"m[1:2]")?;
    assert_pieces(&rt, alloc, &[(11, 23)], 8, b"m")?;
    assert_pieces(&rt, alloc, &[(17, 18)], 8, b"m[1][2]")?;
    assert_pieces(&rt, alloc, &[(23, 24)], 8, b"b[0]")?;
    assert_pieces(&rt, alloc, &[(0, 24)], 8, b"x, a, m, b[0]")?;
    assert_pieces(&rt, alloc, &[(9, 13)], 8, b"a[8:9], m[0][0:1]")?;
    Ok(())
}

#[test]
fn neighbouring_rows_are_one_piece(rt: HostRuntime) -> Result<(), Fail> {
    let alloc = rt.alloc();
    assert_pieces(
        &rt,
        alloc,
        &[(12, 14), (16, 18), (19, 21)],
        8,
        b"m[0:1][1:2], m[2][0:1]",
    )?;
    assert_pieces(
        &rt,
        alloc,
        &[(11, 12), (14, 16), (18, 19)],
        8,
        b"m[0:1][0], m[0:1][3]",
    )?;
    assert_pieces(&rt, alloc, &[(12, 13), (20, 21)], 8, b"m[0][1], m[2][1]")?;
    assert_pieces(&rt, alloc, &[(13, 20)], 8, b"m[0][2:3], m[1], m[2][0]")?;
    assert_pieces(&rt, alloc, &[(11, 15), (19, 23)], 8, b"m[0], m[2]")?;
    Ok(())
}

#[test]
fn pieces_past_the_most_are_counted(rt: HostRuntime) -> Result<(), Fail> {
    let alloc = rt.alloc();
    let apart = [(1, 2), (3, 4), (5, 7)];
    assert_pieces(&rt, alloc, &apart, 1, b"a[0], 3 more cells")?;
    assert_pieces(&rt, alloc, &apart, 2, b"a[0], a[2], 2 more cells")?;
    assert_pieces(&rt, alloc, &apart, 3, b"a[0], a[2], a[4:5]")?;
    assert_pieces(&rt, alloc, &[(1, 2), (3, 4)], 1, b"a[0], 1 more cell")?;
    Ok(())
}

/// A cell has this name, by the program and by the table of its globals.
fn assert_name(rt: &impl Abort, alloc: Global, cell: u32, wanted: &[u8]) -> Result<(), Fail> {
    let program = layout(alloc)?;
    let mut text = Vec::new(alloc);
    add_cell_name(alloc, &program, cell, &mut text)?;
    assert!(rt; text.as_slice() == wanted);
    let globals = Globals::of(alloc, program.items.as_slice())?;
    let mut text = Vec::new(alloc);
    add_cell_name_among(alloc, &globals, cell, &mut text)?;
    assert!(rt; text.as_slice() == wanted);
    Ok(())
}

#[test]
fn cells_have_names(rt: HostRuntime) -> Result<(), Fail> {
    let alloc = rt.alloc();
    assert_name(&rt, alloc, 0, b"x")?;
    assert_name(&rt, alloc, 1, b"a[0]")?;
    assert_name(&rt, alloc, 4, b"a[3]")?;
    assert_name(&rt, alloc, 11, b"m[0][0]")?;
    assert_name(&rt, alloc, 17, b"m[1][2]")?;
    assert_name(&rt, alloc, 22, b"m[2][3]")?;
    assert_name(&rt, alloc, 23, b"b[0]")?;
    assert_name(&rt, alloc, 24, b"")?;
    Ok(())
}
