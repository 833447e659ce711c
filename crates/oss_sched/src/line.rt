//! One line of a schedule: a move in its exact form, nothing where it is empty or a comment, or wrong.
ghost use Rattle.std.specs.Prelude.{◌≡◌, IfOk, OnOk};
ghost use Rattle.oss_sched.specs.Reading.{cells_in, cells_move, is_remark, move_in, named_move, point_in, run_in, step_in, told_in, told_of as told_of_move};

use crate::cuts::cut;
use crate::moves::TextMove;
use crate::numbers::number_within;
use crate::told::{CellVerb, Told};
use oss_model::{Point, read_point};
use std::alloc::{AllocError, Global};

/// The last cell that a move may begin at.
const LAST_CELL: u64 = 1_048_575;

/// The most cells that a move names.
const MOST_CELLS: u64 = 1_048_576;

/// What a line tells.
#[tactic(auto, unfolding(crate::specs::Reading::told_in))]
pub(crate) fn read_line(alloc: Global, line: &[u8]) -> Result<Told, AllocError>
    ensures { IfOk result (λ told. told ≡ told_in line.now) }
{
    if is_silent(line) {
        return Ok(Told::Nothing);
    }
    Ok(told_of(read_move(alloc, line)?))
}

/// What a line that is neither empty nor a comment tells, from the move that it is.
fn told_of(found: Option<TextMove>) -> Told
    ensures { result ≡ told_of_move found }
{
    match found {
        Some(what) => Told::Move(what),
        None => Told::Wrong,
    }
}

/// Whether a line is empty or a comment.
fn is_silent(line: &[u8]) -> bool
    ensures { result ≡ is_remark line.now }
{
    match line.split_first() {
        Some((first, _rest)) => *first == b'#',
        None => true,
    }
}

/// The move that a line is, if it is one in its exact form.
#[tactic(auto, unfolding(crate::specs::Reading::move_in))]
fn read_move(alloc: Global, line: &[u8]) -> Result<Option<TextMove>, AllocError>
    ensures { IfOk result (λ found. found ≡ move_in line.now) }
{
    match cut(line) {
        Some((verb, rest)) => read_named(alloc, verb, rest),
        None => Ok(None),
    }
}

/// The move with this verb that the words behind it are, if they are one.
#[tactic(auto, unfolding(crate::specs::Reading::named_move))]
fn read_named(alloc: Global, verb: &[u8], rest: &[u8]) -> Result<Option<TextMove>, AllocError>
    ensures { IfOk result (λ found. found ≡ named_move verb.now rest.now) }
{
    if verb == b"step".as_slice() {
        read_step(alloc, rest)
    } else if verb == b"let".as_slice() {
        read_cells(alloc, CellVerb::Let, rest)
    } else if verb == b"join".as_slice() {
        read_cells(alloc, CellVerb::Join, rest)
    } else {
        Ok(None)
    }
}

/// The acts of a task that the words behind `step` are, if they are some: its point and how many.
#[tactic(auto, unfolding(crate::specs::Reading::step_in))]
fn read_step(alloc: Global, text: &[u8]) -> Result<Option<TextMove>, AllocError>
    ensures { IfOk result (λ found. found ≡ step_in text.now) }
{
    let Some((point, count)) = cut(text) else {
        return Ok(None);
    };
    let Some(count) = number_within(1, u64::MAX, count) else {
        return Ok(None);
    };
    match point_of(alloc, point)? {
        Some(point) => Ok(Some(TextMove::Step(point, count))),
        None => Ok(None),
    }
}

/// The cells of a task that the words behind a verb are, if they are some: its point, the first cell and how many.
#[tactic(auto, unfolding(crate::specs::Reading::cells_in))]
fn read_cells(alloc: Global, verb: CellVerb, text: &[u8]) -> Result<Option<TextMove>, AllocError>
    ensures { IfOk result (λ found. found ≡ cells_in verb text.now) }
{
    let Some((point, run)) = cut(text) else {
        return Ok(None);
    };
    let Some((first, count)) = run_of(run) else {
        return Ok(None);
    };
    match point_of(alloc, point)? {
        Some(point) => Ok(Some(move_of(verb, point, first, count))),
        None => Ok(None),
    }
}

/// The move of this verb on so many cells from the first on.
fn move_of(verb: CellVerb, point: Point, first: u32, count: u32) -> TextMove
    ensures { result ≡ cells_move verb point first count }
{
    match verb {
        CellVerb::Let => TextMove::Let(point, first, count),
        CellVerb::Join => TextMove::Join(point, first, count),
    }
}

/// The first cell and the number of cells that a text is.
#[tactic(auto, unfolding(crate::specs::Reading::run_in))]
fn run_of(text: &[u8]) -> Option<(u32, u32)>
    ensures { result ≡ run_in text.now }
{
    let (first, count) = cut(text)?;
    let first = number_within(0, LAST_CELL, first)?;
    let count = number_within(1, MOST_CELLS, count)?;
    Some((first as u32, count as u32))
}

/// The point of a task that a word is, if it is one.
fn point_of(alloc: Global, word: &[u8]) -> Result<Option<Point>, AllocError>
    ensures { IfOk result (λ point. point ≡ point_in word.now) }
{
    read_point(alloc, word)
}
