//! The texts of explanations. The globals are `long x, y, b, a[10], m[6][6], s;`. No task has a label. Each text is that
//! of one of the worked examples, which were written by hand from the rules of the text.

use oss_explanation::{
    Deed, Explained, Failing, Held, Later, Link, Reason, Touching, Use, Word, explain_text,
};
use oss_labels::Labels;
use oss_machine::{Failure, Miss, Stretch};
use oss_model::{Point, read_point};
use oss_pieces::{Piece, Span};
use oss_syntax::{GlobalDef, Item, List, Name, NumKind, Op, Program};
use std::alloc::{AllocError, Global};
use std::process::Abort;
use std::test::Fail;

const X: u32 = 0;

const Y: u32 = 1;

const B: u32 = 2;

const A: u32 = 3;

const S: u32 = 49;

/// A global.
fn global(
    alloc: Global,
    name: &[u8],
    cells: Option<u64>,
    columns: Option<u64>,
) -> Result<Item, AllocError> {
    Ok(Item::Global(GlobalDef {
        name: Name::from_slice(alloc, name)?,
        kind: NumKind::Long,
        cells,
        columns,
        first: 0,
        line: 1,
    }))
}

/// The globals.
fn layout(alloc: Global) -> Result<Program, AllocError> {
    let mut items = List::new(alloc);
    items.push(global(alloc, b"x", None, None)?)?;
    items.push(global(alloc, b"y", None, None)?)?;
    items.push(global(alloc, b"b", None, None)?)?;
    items.push(global(alloc, b"a", Some(10), None)?)?;
    items.push(global(alloc, b"m", Some(36), Some(6))?)?;
    items.push(global(alloc, b"s", None, None)?)?;
    Ok(Program { items })
}

/// The point that is written so.
fn point(rt: &impl Abort, alloc: Global, text: &[u8]) -> Result<Point, Fail> {
    match read_point(alloc, text)? {
        Some(point) => Ok(point),
        None => panic!(rt; "no point is written so"),
    }
}

/// The columns from one to another of these rows of a global.
fn piece(global: usize, rows: (u32, u32), columns: (u32, u32)) -> Piece {
    Piece {
        global,
        rows: Span {
            first: rows.0,
            last: rows.1,
        },
        columns: Span {
            first: columns.0,
            last: columns.1,
        },
    }
}

/// A strong word.
fn word(named: Use) -> Word {
    Word {
        named,
        strong: true,
    }
}

/// A weak word.
fn weak(named: Use) -> Word {
    Word {
        named,
        strong: false,
    }
}

/// A list of these pieces.
fn list(alloc: Global, pieces: &[Piece]) -> Result<List<Piece>, AllocError> {
    let copies = Vec::from_slice(alloc, pieces)?;
    Ok(List::from_vec(copies))
}

/// The cells that fail.
fn failing(alloc: Global, first: u32, pieces: &[Piece]) -> Result<Failing, AllocError> {
    let all = list(alloc, pieces)?;
    Ok(Failing { first, all })
}

/// The reason of a cell that this child has.
fn lent(
    rt: &impl Abort,
    alloc: Global,
    child: &[u8],
    line: u32,
    (cell, word): (u32, Word),
    later: Later,
) -> Result<Reason, Fail> {
    let child = point(rt, alloc, child)?;
    Ok(Reason::Lent {
        cell,
        child,
        line,
        entry: 0,
        word,
        later,
    })
}

/// Two later children.
fn two_later(rt: &impl Abort, alloc: Global, first: &[u8], last: &[u8]) -> Result<Later, Fail> {
    let first = point(rt, alloc, first)?;
    let last = point(rt, alloc, last)?;
    Ok(Later::Several(2, first, last))
}

/// What a task was about to do on a line, and why it may not.
fn told(
    rt: &impl Abort,
    alloc: Global,
    points: (&[u8], &[u8]),
    line: u32,
    deed: Deed,
    reason: Reason,
) -> Result<Explained, Fail> {
    let task = point(rt, alloc, points.0)?;
    let next = point(rt, alloc, points.1)?;
    Ok(Explained {
        task,
        next,
        line,
        deed,
        reason,
        chain: List::new(alloc),
        holds: List::new(alloc),
        wants: List::new(alloc),
    })
}

/// The explanation with one more task in its chain.
fn linked(
    rt: &impl Abort,
    alloc: Global,
    mut told: Explained,
    task: &[u8],
    line: u32,
    included: bool,
) -> Result<Explained, Fail> {
    let task = point(rt, alloc, task)?;
    told.chain.push(Link {
        task,
        line,
        entry: 0,
        included,
    })?;
    Ok(told)
}

/// The explanation with one more word by which the task has cells.
fn holding(
    alloc: Global,
    mut told: Explained,
    word: Word,
    pieces: &[Piece],
) -> Result<Explained, Fail> {
    let cells = list(alloc, pieces)?;
    told.holds.push(Held { word, cells })?;
    Ok(told)
}

/// The explanation with one more word by which the new task would have cells.
fn wanting(
    alloc: Global,
    mut told: Explained,
    word: Word,
    pieces: &[Piece],
) -> Result<Explained, Fail> {
    let cells = list(alloc, pieces)?;
    told.wants.push(Held { word, cells })?;
    Ok(told)
}

/// The explanation has this text.
fn assert_text(
    rt: &impl Abort,
    alloc: Global,
    told: &Explained,
    wanted: &[u8],
) -> Result<(), Fail> {
    let program = layout(alloc)?;
    let labels = Labels::none(alloc);
    let text = explain_text(alloc, &program, &labels, told, None)?;
    assert!(rt; text.as_slice() == wanted);
    Ok(())
}

#[test]
fn a_read_of_a_lent_cell_is_told(rt: HostRuntime) -> Result<(), Fail> {
    let alloc = rt.alloc();
    let reason = lent(&rt, alloc, b"0.1", 5, (Y, word(Use::Out)), Later::None)?;
    let told = told(&rt, alloc, (b"0", b"0.2"), 7, Deed::Reads(Y), reason)?;
    assert_text(
        &rt,
        alloc,
        &told,
        b"Main reads y at line 7.
Task 0.1 has y by out.
Task 0.1 was created at line 5 by main.
Main has not waited for y since.
What a child may write or fold into is not touched before a wait.
",
    )
}

#[test]
fn a_write_of_a_lent_cell_is_told(rt: HostRuntime) -> Result<(), Fail> {
    let alloc = rt.alloc();
    let later = two_later(&rt, alloc, b"0.1", b"0.2")?;
    let reason = lent(&rt, alloc, b"0.0", 4, (A + 2, word(Use::In)), later)?;
    let told = told(&rt, alloc, (b"0", b"0.3"), 7, Deed::Writes(A + 2), reason)?;
    assert_text(
        &rt,
        alloc,
        &told,
        b"Main writes a[2] at line 7.
Task 0.0 has a[2] by in.
Task 0.0 was created at line 4 by main.
Main has not waited for a[2] since.
2 later children hinder it too: task 0.1 to task 0.2.
What a child may read is not written before a wait.
",
    )
}

#[test]
fn a_write_under_in_is_told(rt: HostRuntime) -> Result<(), Fail> {
    let alloc = rt.alloc();
    let reason = Reason::NoRight(A + 4, Touching::Writing, Some(word(Use::In)));
    let told = told(
        &rt,
        alloc,
        (b"0.0", b"0.0.0"),
        4,
        Deed::Writes(A + 4),
        reason,
    )?;
    let told = linked(&rt, alloc, told, b"0.0", 3, false)?;
    let told = holding(
        alloc,
        told,
        word(Use::In),
        &[piece(3, (0, 0), (0, 4)), piece(3, (0, 0), (8, 9))],
    )?;
    let told = holding(alloc, told, word(Use::Inout), &[piece(3, (0, 0), (5, 7))])?;
    assert_text(
        &rt,
        alloc,
        &told,
        b"Task 0.0 writes a[4] at line 4.
Task 0.0 has a[4] by in alone.
A write wants out or inout.
Task 0.0 was created at line 3 by main.
Task 0.0 has a[0:4], a[8:9] by in.
Task 0.0 has a[5:7] by inout.
",
    )
}

#[test]
fn a_read_under_a_weak_clause_is_told(rt: HostRuntime) -> Result<(), Fail> {
    let alloc = rt.alloc();
    let reason = Reason::NoRight(X, Touching::Reading, Some(weak(Use::In)));
    let told = told(&rt, alloc, (b"0.0", b"0.0.0"), 4, Deed::Reads(X), reason)?;
    let told = linked(&rt, alloc, told, b"0.0", 3, false)?;
    let told = holding(alloc, told, weak(Use::In), &[piece(0, (0, 0), (0, 0))])?;
    assert_text(
        &rt,
        alloc,
        &told,
        b"Task 0.0 reads x at line 4.
Task 0.0 has x by weakin alone.
A weak clause is for the tasks below, and not for the task itself.
Task 0.0 was created at line 3 by main.
Task 0.0 has x by weakin.
",
    )
}

#[test]
fn included_tasks_are_told(rt: HostRuntime) -> Result<(), Fail> {
    let alloc = rt.alloc();
    let reason = Reason::NoRight(S, Touching::Folding(Op::Add), None);
    let told = told(
        &rt,
        alloc,
        (b"0.0.0.0", b"0.0.0.0.0"),
        10,
        Deed::Folds(S, Op::Add),
        reason,
    )?;
    let told = linked(&rt, alloc, told, b"0.0.0.0", 9, true)?;
    let told = linked(&rt, alloc, told, b"0.0.0", 6, true)?;
    let told = linked(&rt, alloc, told, b"0.0", 3, false)?;
    let told = holding(alloc, told, word(Use::In), &[piece(4, (1, 2), (1, 2))])?;
    assert_text(
        &rt,
        alloc,
        &told,
        b"Task 0.0.0.0 folds into s by += at line 10.
No clause of task 0.0.0.0 names s.
A fold by += wants reduction(+), out or inout.
Task 0.0.0.0 was created at line 9 by task 0.0.0, and is included in it.
Task 0.0.0 was created at line 6 by task 0.0, and is included in it.
Task 0.0 was created at line 3 by main.
Task 0.0.0.0 has m[1:2][1:2] by in.
",
    )
}

#[test]
fn clauses_that_do_not_go_together_are_told(rt: HostRuntime) -> Result<(), Fail> {
    let alloc = rt.alloc();
    let cells = failing(alloc, X, &[piece(0, (0, 0), (0, 0))])?;
    let words = Vec::from_slice(alloc, &[word(Use::Reduction(Op::Add)), word(Use::In)])?;
    let reason = Reason::MixedAccess(List::from_vec(words), cells);
    let told = told(&rt, alloc, (b"0", b"0.0"), 3, Deed::Creates, reason)?;
    assert_text(
        &rt,
        alloc,
        &told,
        b"Main creates task 0.0 at line 3.
The clauses of task 0.0 name x by reduction(+) and by in.
A reduction goes with no other mode or operator on one cell.
",
    )
}

#[test]
fn clauses_that_are_not_covered_are_told(rt: HostRuntime) -> Result<(), Fail> {
    let alloc = rt.alloc();
    let cells = failing(alloc, Y, &[piece(1, (0, 0), (0, 0))])?;
    let reason = Reason::CreationNotCovered(word(Use::In), None, cells);
    let told = told(&rt, alloc, (b"0.0", b"0.0.0"), 5, Deed::Creates, reason)?;
    let told = linked(&rt, alloc, told, b"0.0", 3, false)?;
    let told = holding(alloc, told, word(Use::Inout), &[piece(0, (0, 0), (0, 0))])?;
    let told = wanting(alloc, told, word(Use::In), &[piece(1, (0, 0), (0, 0))])?;
    assert_text(
        &rt,
        alloc,
        &told,
        b"Task 0.0 creates task 0.0.0 at line 5.
Task 0.0.0 would have y by in.
No clause of task 0.0 names y.
A child's in wants in, out or inout of its creator, strong or weak.
Task 0.0 was created at line 3 by main.
Task 0.0 has x by inout.
Task 0.0.0 would have y by in.
",
    )
}

#[test]
fn a_release_that_is_not_covered_is_told(rt: HostRuntime) -> Result<(), Fail> {
    let alloc = rt.alloc();
    let cells = failing(alloc, A + 2, &[piece(3, (0, 0), (2, 3))])?;
    let named = list(alloc, &[piece(3, (0, 0), (1, 3))])?;
    let reason = Reason::ReleaseNotCovered(word(Use::Out), Some(word(Use::In)), cells);
    let told = told(
        &rt,
        alloc,
        (b"0.0", b"0.0.0"),
        5,
        Deed::Releases(named),
        reason,
    )?;
    let told = linked(&rt, alloc, told, b"0.0", 3, false)?;
    let told = holding(alloc, told, word(Use::In), &[piece(3, (0, 0), (0, 3))])?;
    let told = holding(alloc, told, weak(Use::Inout), &[piece(3, (0, 0), (6, 7))])?;
    assert_text(
        &rt,
        alloc,
        &told,
        b"Task 0.0 releases a[1:3] at line 5.
It releases a[2] by out.
Task 0.0 has a[2] by in alone.
Not covered are a[2:3].
To release out or inout wants out or inout, strong or weak.
Task 0.0 was created at line 3 by main.
Task 0.0 has a[0:3] by in.
Task 0.0 has a[6:7] by weakinout.
",
    )
}

#[test]
fn a_wait_that_is_not_covered_is_told(rt: HostRuntime) -> Result<(), Fail> {
    let alloc = rt.alloc();
    let cells = failing(alloc, B, &[piece(2, (0, 0), (0, 0))])?;
    let named = list(alloc, &[piece(3, (0, 0), (2, 2)), piece(2, (0, 0), (0, 0))])?;
    let reason = Reason::WaitNotCovered(cells);
    let told = told(
        &rt,
        alloc,
        (b"0.0", b"0.0.0"),
        5,
        Deed::WaitsOn(named),
        reason,
    )?;
    let told = linked(&rt, alloc, told, b"0.0", 3, false)?;
    let told = holding(alloc, told, word(Use::In), &[piece(3, (0, 0), (0, 9))])?;
    assert_text(
        &rt,
        alloc,
        &told,
        b"Task 0.0 waits on a[2], b at line 5.
No clause of task 0.0 names b.
A task waits on cells that its own clauses name.
Task 0.0 was created at line 3 by main.
Task 0.0 has a by in.
",
    )
}

#[test]
fn released_cells_are_told(rt: HostRuntime) -> Result<(), Fail> {
    let alloc = rt.alloc();
    let cells = failing(alloc, A, &[piece(3, (0, 0), (0, 0))])?;
    let reason = Reason::Released(5, cells);
    let told = told(&rt, alloc, (b"0.0", b"0.0.0"), 6, Deed::Creates, reason)?;
    let told = linked(&rt, alloc, told, b"0.0", 3, false)?;
    let told = holding(alloc, told, word(Use::Inout), &[piece(3, (0, 0), (0, 9))])?;
    let told = wanting(alloc, told, word(Use::In), &[piece(3, (0, 0), (0, 9))])?;
    assert_text(
        &rt,
        alloc,
        &told,
        b"Task 0.0 creates task 0.0.0 at line 6.
Task 0.0 has released a[0] at line 5.
A task neither touches nor names a cell that it has released.
Task 0.0 was created at line 3 by main.
Task 0.0 has a by inout.
Task 0.0.0 would have a by in.
",
    )
}

#[test]
fn a_read_under_a_reduction_is_told(rt: HostRuntime) -> Result<(), Fail> {
    let alloc = rt.alloc();
    let reason = Reason::BadReduction(X, Op::Add);
    let told = told(&rt, alloc, (b"0.0", b"0.0.0"), 4, Deed::Reads(X), reason)?;
    let told = linked(&rt, alloc, told, b"0.0", 3, false)?;
    let told = holding(
        alloc,
        told,
        word(Use::Reduction(Op::Add)),
        &[piece(0, (0, 0), (0, 0))],
    )?;
    assert_text(
        &rt,
        alloc,
        &told,
        b"Task 0.0 reads x at line 4.
Task 0.0 has x by reduction(+).
Under reduction(+) a task touches x by x += VALUE alone.
Task 0.0 was created at line 3 by main.
Task 0.0 has x by reduction(+).
",
    )
}

#[test]
fn a_read_before_a_write_is_told(rt: HostRuntime) -> Result<(), Fail> {
    let alloc = rt.alloc();
    let reason = Reason::Unwritten(X);
    let told = told(&rt, alloc, (b"0.0", b"0.0.0"), 4, Deed::Reads(X), reason)?;
    let told = linked(&rt, alloc, told, b"0.0", 3, false)?;
    let told = holding(alloc, told, word(Use::Out), &[piece(0, (0, 0), (0, 0))])?;
    assert_text(
        &rt,
        alloc,
        &told,
        b"Task 0.0 reads x at line 4.
Task 0.0 has x by out alone.
It has neither written x nor created a child that may write it.
Under out a task writes a cell before it reads it or folds into it; inout wants no write first.
Task 0.0 was created at line 3 by main.
Task 0.0 has x by out.
",
    )
}

#[test]
fn fuel_that_is_used_up_is_told(rt: HostRuntime) -> Result<(), Fail> {
    let alloc = rt.alloc();
    let reason = Reason::OutOfFuel(100);
    let told = told(&rt, alloc, (b"0.1", b"0.1.0"), 6, Deed::Ticks, reason)?;
    let told = linked(&rt, alloc, told, b"0.1", 5, false)?;
    let told = holding(alloc, told, word(Use::Inout), &[piece(1, (0, 0), (0, 0))])?;
    assert_text(
        &rt,
        alloc,
        &told,
        b"Task 0.1 makes a tick at line 6.
Its fuel of 100 ticks is used up.
A statement, a test of a loop and a call make a tick each; --fuel sets the fuel of each task.
Task 0.1 was created at line 5 by main.
Task 0.1 has y by inout.
",
    )
}

#[test]
fn a_division_by_0_is_told(rt: HostRuntime) -> Result<(), Fail> {
    let alloc = rt.alloc();
    let reason = Reason::Plain;
    let told = told(&rt, alloc, (b"0", b"0.0"), 4, Deed::Divides, reason)?;
    assert_text(&rt, alloc, &told, b"Main divides by 0 at line 4.\n")
}

/// A failure of main on line 3 has this text.
fn assert_failure(
    rt: &impl Abort,
    alloc: Global,
    failure: Failure,
    wanted: &[u8],
) -> Result<(), Fail> {
    let program = layout(alloc)?;
    let told = told(rt, alloc, (b"0", b"0.0"), 3, Deed::Misses, Reason::Plain)?;
    let labels = Labels::none(alloc);
    let text = explain_text(alloc, &program, &labels, &told, Some(failure))?;
    assert!(rt; text.as_slice() == wanted);
    Ok(())
}

#[test]
fn a_shift_is_told_by_its_number(rt: HostRuntime) -> Result<(), Fail> {
    assert_failure(
        &rt,
        rt.alloc(),
        Failure::Shift(-1),
        b"Main shifts by -1 at line 3.\nA shift is by 0 to 63.\n",
    )
}

#[test]
fn a_place_before_rows_is_told_by_its_row_and_column(rt: HostRuntime) -> Result<(), Fail> {
    assert_failure(
        &rt,
        rt.alloc(),
        Failure::Outside(4, Miss::Place(-7)),
        b"Main uses the place m[-2][5] at line 3.\nm has the rows 0 to 5 and the columns 0 to 5.\n",
    )
}

#[test]
fn a_section_is_told_by_its_rows_and_columns(rt: HostRuntime) -> Result<(), Fail> {
    assert_failure(
        &rt,
        rt.alloc(),
        Failure::Outside(4, Miss::Grid(Stretch::One(6), Stretch::Few(0))),
        b"Main names a section of m at line 3.
It has the row 6.
It has 0 columns.
m has the rows 0 to 5 and the columns 0 to 5.
",
    )
}
