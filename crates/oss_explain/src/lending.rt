//! Why a touch of a cell that is lent may not be made.

ghost use Rattle.std.specs.Prelude.{◌≡◌, ◌≤◌, ◌<◌, ◌++◌, ◌∷◌, [], None, Some, List as Items, ℕ, length, map, IfOk};
ghost use Rattle.oss_model.specs.Order.{written};
ghost use Rattle.oss_explanation.specs.Lives.{told_later};
ghost use Rattle.oss_explain.specs.Noting.{hindering};
ghost use Rattle.oss_explain.specs.Owned.{own_of};
ghost use Rattle.oss_explain.specs.Reasons.{IsLentTo, number_of, touch_seen};

use crate::at_cell::word_at;
use crate::begun::{Begun, Child};
use crate::holders::holders;
use oss_explanation::{Later, Reason, Touching, Word};
use oss_model::Point;
use std::alloc::{AllocError, Global};

/// Why a touch of a cell that is lent to children, which hinder it, may not be made. It is one walk over what is noted.
pub(crate) fn lent_reason(
    alloc: Global,
    cell: u32,
    touch: Touching,
    top: &Begun,
) -> Result<Reason, AllocError>
    requires some { hindering cell (touch_seen touch) top.now.noted ≡ [] → ⊥ }
    requires few { length (hindering cell (touch_seen touch) top.now.noted) ≤ 65535 }
    requires short { length top.now.point < 66 }
    ensures { IfOk result (λ reason. IsLentTo cell top.now.point (hindering cell (touch_seen touch) top.now.noted) reason) }
{
    let held = holders(alloc, top.noted.as_slice(), cell, touch)?;
    match held.as_slice().split_first() {
        Some((first, others)) => lent_to(cell, &top.point, *first, others),
        None => unreachable!(),
    }
}

/// The same by the children that hinder it: the first, and those after it.
fn lent_to(cell: u32, point: &Point, first: &Child, others: &[&Child]) -> Result<Reason, AllocError>
    requires few { length others.now ≤ 65534 }
    requires short { length point.now < 66 }
    requires word { own_of first.now.accesses cell ≡ None → ⊥ }
    ensures { IfOk result (λ reason. IsLentTo cell point.now (first.now ∷ map (λ child. child.now) others.now) reason) }
{
    match word_at(first.accesses.as_slice(), false, cell) {
        Some(word) => lent_by(cell, point, first, word, others),
        None => unreachable!(),
    }
}

/// The same where the first of them has the cell by this word.
fn lent_by(
    cell: u32,
    point: &Point,
    first: &Child,
    word: Word,
    others: &[&Child],
) -> Result<Reason, AllocError>
    requires few { length others.now ≤ 65534 }
    requires short { length point.now < 66 }
    requires word { own_of first.now.accesses cell ≡ Some word }
    ensures { IfOk result (λ reason. IsLentTo cell point.now (first.now ∷ map (λ child. child.now) others.now) reason) }
{
    let child = point.child(first.number)?;
    match later_of(point, others) {
        Ok(later) => Ok(Reason::Lent {
            cell,
            child,
            line: first.line,
            entry: first.entry,
            word,
            later,
        }),
        Err(full) => {
            drop(child);
            Err(full)
        }
    }
}

/// How the later children of a task at this point are told.
fn later_of(point: &Point, others: &[&Child]) -> Result<Later, AllocError>
    requires few { length others.now ≤ 65534 }
    requires short { length point.now < 66 }
    ensures { IfOk result (λ later. (path : Items ℕ) → point.now ≡ written path → later ≡ told_later path (map number_of (map (λ child. child.now) others.now))) }
{
    match others.split_first() {
        None => Ok(Later::None),
        Some((second, more)) => match more.split_last() {
            None => one(point, second.number),
            Some((last, _)) => several(point, others.len() as u32, second.number, last.number),
        },
    }
}

/// One later child is told by its point.
fn one(point: &Point, number: u16) -> Result<Later, AllocError>
    requires { length point.now < 66 }
    ensures { IfOk result (λ later. later ≡ Later.One (point.now ++ number ∷ [])) }
{
    match point.child(number) {
        Ok(child) => Ok(Later::One(child)),
        Err(full) => Err(full),
    }
}

/// So many later children are told by the points of the first of them and of the last.
fn several(point: &Point, count: u32, first: u16, last: u16) -> Result<Later, AllocError>
    requires { length point.now < 66 }
    ensures { IfOk result (λ later. later ≡ Later.Several count (point.now ++ first ∷ []) (point.now ++ last ∷ [])) }
{
    let from = point.child(first)?;
    match point.child(last) {
        Ok(to) => Ok(Later::Several(count, from, to)),
        Err(full) => {
            drop(from);
            Err(full)
        }
    }
}
