//! Marks of cells: a cell that only `out` names has nothing in it for the task to read before it has written it.
ghost use Rattle.std.specs.Prelude.{◌≡◌};
ghost use Rattle.oss_judge.specs.Seen.{mark_seen, mark_told};

/// Whether a cell has a value for the task: one that only `out` names has none before it is written.
#[derive(Clone, Copy, PartialEq, Eq)]
pub(crate) enum Mark {
    Unwritten,
    Written,
}

/// What a map tells of a cell, if anything.
pub(crate) fn told(mark: Option<Mark>) -> Mark
    ensures { mark_seen result ≡ mark_told mark }
{
    match mark {
        Some(mark) => mark,
        None => Mark::Written,
    }
}
