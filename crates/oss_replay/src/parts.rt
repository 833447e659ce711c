//! The moves of a schedule by their parts.

ghost use Rattle.std.specs.Prelude.{◌≡◌, ◌+◌, ◌<◌, ◌≤◌, ◌^◌, MatchOption};
ghost use Rattle.oss_replay.specs.Making.{IsBeyond, part_of};
ghost use Rattle.oss_replay.specs.Replays.{parts_in, point_in};

use oss_model::{Move, Point, TaskNo};
use oss_sched::TextMove;

/// The point of the task that a move names.
pub(crate) fn point_of(what: &TextMove) -> &Point
    ensures { result.now ≡ point_in what.now }
{
    match what {
        TextMove::Step(point, _) => point,
        TextMove::Let(point, _, _) => point,
        TextMove::Join(point, _, _) => point,
    }
}

/// How many parts a move has.
pub(crate) fn parts_of(what: &TextMove) -> u64
    ensures { result ≡ parts_in what.now }
{
    match what {
        TextMove::Step(_, count) => *count,
        TextMove::Let(_, _, count) => u64::from(*count),
        TextMove::Join(_, _, count) => u64::from(*count),
    }
}

/// The part of a move with this number, counted from 0, where the task has that number. There is none whose
/// cell is past what 32 bits can tell.
pub(crate) fn part(what: &TextMove, task: TaskNo, k: u64) -> Option<Move>
    ensures { MatchOption result (IsBeyond what.now k) (λ part. part ≡ part_of what.now task k) }
{
    match what {
        TextMove::Step(_, _) => Some(Move::Step(task)),
        TextMove::Let(_, first, _) => match cell(*first, k) {
            Some(cell) => Some(Move::Let(task, cell)),
            None => None,
        },
        TextMove::Join(_, first, _) => match cell(*first, k) {
            Some(cell) => Some(Move::Join(task, cell)),
            None => None,
        },
    }
}

/// The cell that stands so many behind the first one.
fn cell(first: u32, k: u64) -> Option<u32>
    ensures { MatchOption result (2 ^ 32 ≤ first + k) (λ cell. cell ≡ first + k) }
{
    if k > u64::from(u32::MAX - first) {
        return None;
    }
    Some(first + k as u32)
}
