//! The joined modes of clauses, and the cells of which two of them cannot be joined.

ghost use Rattle.std.specs.Prelude.{◌≡◌, ℕ, [], false, IfOk, OnOk};
ghost use Rattle.oss_model.specs.Rights.{joined_mode};
ghost use Rattle.oss_pieces.specs.CellSets.{has};
ghost use Rattle.oss_explain.specs.Joining.{AreJoined, AreMixed, AreModes, JoinsMixed, JoinsModes, joined_held};

use crate::words_of::same_op;
use oss_pieces::CellSet;
use oss_ranges::RangeMap;
use oss_syntax::{Access, Mode, Range};
use std::alloc::{AllocError, Global};

/// The joined mode of each cell that clauses name, and the cells of which two of them cannot be joined.
#[derive(Drop)]
pub(crate) struct Modes {
    pub(crate) modes: RangeMap<Mode>,
    pub(crate) mixed: CellSet,
}

impl Modes {
    /// Those of these clauses. It costs what the runs of alike cells in the ranges of the clauses cost.
    pub(crate) fn of(alloc: Global, clauses: &[Access]) -> Result<Modes, AllocError>
        ensures { IfOk result (λ modes. AreModes clauses.now modes) }
    {
        let mut modes = RangeMap::new(alloc);
        let mut mixed = CellSet::new(alloc);
        match join_all(&mut modes, &mut mixed, clauses) {
            Ok(()) => Ok(Modes { modes, mixed }),
            Err(full) => {
                drop(modes);
                drop(mixed);
                Err(full)
            }
        }
    }
}

/// Joins all clauses, the last one first.
fn join_all(
    modes: &mut RangeMap<Mode>,
    mixed: &mut CellSet,
    clauses: &[Access],
) -> Result<(), AllocError>
    requires modes { modes.old.pieces ≡ [] }
    requires mixed { (c : ℕ) → has mixed.old c ≡ false }
    ensures modes { OnOk result (AreJoined clauses.now modes.new.pieces) }
    ensures mixed { OnOk result (AreMixed clauses.now mixed.new) }
{
    let mut left = clauses.len();
    while left > 0 {
        left -= 1;
        let clause = clauses[left];
        join(modes, mixed, clause.range, clause.mode)?;
    }
    Ok(())
}

/// Joins a clause of this mode to the modes of the cells of its range.
fn join(
    modes: &mut RangeMap<Mode>,
    mixed: &mut CellSet,
    range: Range,
    mode: Mode,
) -> Result<(), AllocError>
    ensures modes { OnOk result (JoinsModes mode range.lo range.hi modes.old.pieces modes.new.pieces) }
    ensures mixed { OnOk result (JoinsMixed mode range.lo range.hi modes.old.pieces mixed.old mixed.new) }
{
    let mut from = range.lo;
    while from < range.hi {
        let (held, end) = modes.run_from(from, range.hi);
        let run = Range { lo: from, hi: end };
        match joined(mode, held) {
            Some(both) => modes.assign(run, both)?,
            None => {
                modes.clear(run)?;
                mixed.add(run)?;
            }
        }
        from = end;
    }
    Ok(())
}

/// The mode of a clause joined to those of others, if there are others; `None` if they cannot be joined.
fn joined(mode: Mode, held: Option<Mode>) -> Option<Mode>
    ensures { result ≡ joined_held mode held }
{
    match held {
        None => Some(mode),
        Some(other) => joined_modes(mode, other),
    }
}

/// The mode of two clauses; `None` if they cannot be joined.
pub(crate) fn joined_modes(mode: Mode, other: Mode) -> Option<Mode>
    ensures { result ≡ joined_mode mode other }
{
    match mode {
        Mode::Read => match other {
            Mode::Read => Some(Mode::Read),
            Mode::Write => Some(Mode::Write),
            Mode::Fold(_) => None,
        },
        Mode::Write => match other {
            Mode::Read => Some(Mode::Write),
            Mode::Write => Some(Mode::Write),
            Mode::Fold(_) => None,
        },
        Mode::Fold(op) => match other {
            Mode::Read => None,
            Mode::Write => None,
            Mode::Fold(another) => {
                if same_op(op, another) {
                    Some(Mode::Fold(op))
                } else {
                    None
                }
            }
        },
    }
}
