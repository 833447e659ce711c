//! Changes of a range map that all happen, or none where memory is wanting.
ghost use Rattle.std.specs.Prelude.{◌≡◌, ◌≤◌, ◌<◌, ◌*◌, ◌^◌, ℕ, Some, None, IsOk, IfOk, OnOk, OnErr, length, ◌+◌, map, if◌then◌else◌};
ghost use Rattle.oss_ranges.specs.Cells.{Assigns, value_at};
ghost use Rattle.oss_judge.specs.Changed.{overlaid};
ghost use Rattle.oss_judge.specs.Parts.{reading};
ghost use Rattle.oss_judge.specs.Seen.{lending_told, lent_at, mark_at, mark_told, right_at, right_told};
ghost use Rattle.oss_model.specs.Context.{in_clauses, lend_cell, made_mark};
ghost use Rattle.oss_model.specs.Rights.{Free, Released, in_access};
ghost use Rattle.oss_judge.specs.declared.right.Right.TheVariants as RightKept;

use crate::lending::{self, Lending};
use crate::mark::Mark;
use crate::right::{self, Right};
use oss_ranges::RangeMap;
use oss_syntax::{Access, Mode, Range};
use std::alloc::{AllocError, Global};

/// The value that all cells of a range get, or none.
#[derive(Clone, Copy)]
pub(crate) struct Change<T> {
    pub(crate) range: Range,
    pub(crate) value: Option<T>,
}

/// Makes the changes in their order. After want of memory the map is as it was.
pub(crate) fn change_all<T: Copy + Eq>(
    map: &mut RangeMap<T>,
    changes: &[Change<T>],
) -> Result<(), AllocError>
    ensures ok { OnOk result ((cell : ℕ) → value_at map.new.pieces cell ≡ overlaid changes.now cell
        (value_at map.old.pieces cell)) }
    ensures err { OnErr result (map.new.pieces ≡ map.old.pieces) }
{
    map.reserve_all(changes.len())?;
    change_reserved(map, changes);
    Ok(())
}

/// Makes changes of two maps. After want of memory both are as they were.
pub(crate) fn change_both<S: Copy + Eq, T: Copy + Eq>(
    first: &mut RangeMap<S>,
    second: &mut RangeMap<T>,
    first_changes: &[Change<S>],
    second_changes: &[Change<T>],
) -> Result<(), AllocError>
    ensures first { OnOk result ((cell : ℕ) → value_at first.new.pieces cell ≡ overlaid first_changes.now cell
        (value_at first.old.pieces cell)) }
    ensures second { OnOk result ((cell : ℕ) → value_at second.new.pieces cell ≡
        overlaid second_changes.now cell (value_at second.old.pieces cell)) }
    ensures first_stays { OnErr result (first.new.pieces ≡ first.old.pieces) }
    ensures second_stays { OnErr result (second.new.pieces ≡ second.old.pieces) }
{
    // The room for the first comes before the second is changed, so that nothing can fail any more once that is.
    first.reserve_all(first_changes.len())?;
    change_all(second, second_changes)?;
    change_reserved(first, first_changes);
    Ok(())
}

/// Makes the changes in their order, in room that was reserved for them.
fn change_reserved<T: Copy + Eq>(map: &mut RangeMap<T>, changes: &[Change<T>])
    requires { 3 * length changes.now ≤ map.old.spares }
    ensures { (cell : ℕ) → value_at map.new.pieces cell ≡ overlaid changes.now cell (value_at map.old.pieces cell) }
{
    for change in changes {
        match one_change(map, *change) {
            Ok(()) => {}
            Err(_) => unreachable!(),
        }
    }
}

/// Makes one change.
fn one_change<T: Copy + Eq>(map: &mut RangeMap<T>, change: Change<T>) -> Result<(), AllocError>
    requires { 3 ≤ map.old.spares }
    ensures ok { IsOk result }
    ensures map { Assigns change.range.lo change.range.hi change.value map.old.pieces map.new.pieces }
    ensures spares { map.old.spares ≤ map.new.spares + 3 }
{
    match change.value {
        Some(value) => map.assign(change.range, value),
        None => map.clear(change.range),
    }
}

/// What a creation changes of what is lent of the first `cells` cells, where the new task gets these rights.
pub(crate) fn lendings(
    alloc: Global,
    lent: &RangeMap<Lending>,
    given: &RangeMap<Right>,
    cells: u32,
) -> Result<Vec<Change<Lending>>, AllocError>
    requires { cells ≤ 1048576 }
    ensures few { IfOk result (λ changes. length changes.items ≤ cells) }
    ensures here { IfOk result (λ changes. (c : ℕ) → c < cells →
        lending_told (overlaid changes.items c (value_at lent.now.pieces c)) ≡
        lend_cell (right_at given.now.pieces c) (lent_at lent.now.pieces c)) }
    ensures past { IfOk result (λ changes. (c : ℕ) (value : _) → cells ≤ c → overlaid changes.items c value ≡ value) }
{
    let mut changes = Vec::new(alloc);
    let mut from = 0;
    'runs: while from < cells {
        let (wanted, end) = given.run_from(from, cells);
        match wanted {
            None => from = end,
            Some(wanted) => {
                let (own, end) = lent.run_from(from, end);
                changes.push(Change {
                    range: Range { lo: from, hi: end },
                    value: Some(lending::told(own).lent_to(wanted)),
                })?;
                from = end;
            }
        }
    }
    Ok(changes)
}

/// What a creation changes of the marks of the first `cells` cells, where the new task gets these rights.
pub(crate) fn writings(
    alloc: Global,
    marks: &RangeMap<Mark>,
    given: &RangeMap<Right>,
    cells: u32,
) -> Result<Vec<Change<Mark>>, AllocError>
    requires { cells ≤ 1048576 }
    ensures here { IfOk result (λ changes. (c : ℕ) → c < cells →
        mark_told (overlaid changes.items c (value_at marks.now.pieces c)) ≡
        made_mark (right_at given.now.pieces c) (mark_at marks.now.pieces c)) }
    ensures past { IfOk result (λ changes. (c : ℕ) (value : _) → cells ≤ c → overlaid changes.items c value ≡ value) }
{
    let mut changes = Vec::new(alloc);
    let mut from = 0;
    'runs: while from < cells {
        let (wanted, end) = given.run_from(from, cells);
        if !right::told(wanted).is_write() {
            from = end;
            continue;
        }
        let (mark, end) = marks.run_from(from, end);
        if mark.is_some() {
            changes.push(Change {
                range: Range { lo: from, hi: end },
                value: None,
            })?;
        }
        from = end;
    }
    Ok(changes)
}

/// What a release of these clauses changes of the rights to the first `cells` cells.
pub(crate) fn endings(
    alloc: Global,
    clauses: &[Access],
    cells: u32,
) -> Result<Vec<Change<Right>>, AllocError>
    ensures here { IfOk result (λ changes. (c : ℕ) (value : _) → c < cells →
        right_told (overlaid changes.items c value) ≡
        (if in_clauses clauses.now c then Released else right_told value)) }
    ensures past { IfOk result (λ changes. (c : ℕ) (value : _) → cells ≤ c → overlaid changes.items c value ≡ value) }
{
    let mut changes = Vec::new(alloc);
    for clause in clauses {
        add_ending(&mut changes, clause, cells)?;
    }
    Ok(changes)
}

/// Adds that the rights to the cells of a clause end.
fn add_ending(
    changes: &mut Vec<Change<Right>>,
    clause: &Access,
    cells: u32,
) -> Result<(), AllocError>
    ensures here { OnOk result ((c : ℕ) (value : _) → c < cells →
        overlaid changes.new.items c value ≡ (if in_access clause.now c then Some RightKept.Released else
        overlaid changes.old.items c value)) }
    ensures past { OnOk result ((c : ℕ) (value : _) → cells ≤ c →
        overlaid changes.new.items c value ≡ overlaid changes.old.items c value) }
{
    if cells <= clause.range.lo {
        return Ok(());
    }
    changes.push(Change {
        range: Range {
            lo: clause.range.lo,
            hi: clause.range.hi.min(cells),
        },
        value: Some(Right::Released),
    })?;
    Ok(())
}

/// What a wait for the cells of these ranges changes of what is lent.
pub(crate) fn takings(alloc: Global, named: &[Range]) -> Result<Vec<Change<Lending>>, AllocError>
    ensures here { IfOk result (λ changes. (c : ℕ) (value : _) →
        lending_told (overlaid changes.items c value) ≡
        (if in_clauses (map reading named.now) c then Free else lending_told value)) }
    ensures none { IfOk result (λ changes. (c : ℕ) → overlaid changes.items c None ≡ None) }
{
    let mut changes = Vec::new(alloc);
    for range in named {
        add_taking(&mut changes, *range)?;
    }
    Ok(changes)
}

/// Adds that what is lent of the cells of a range is taken back.
fn add_taking(changes: &mut Vec<Change<Lending>>, range: Range) -> Result<(), AllocError>
    ensures { OnOk result ((c : ℕ) (value : _) → overlaid changes.new.items c value ≡
        (if in_access (reading range) c then None else overlaid changes.old.items c value)) }
{
    changes.push(Change { range, value: None })?;
    Ok(())
}
