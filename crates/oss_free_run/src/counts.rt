//! What the next act of the task that acts is, by its counts.

ghost use Rattle.std.specs.Prelude.{◌≡◌, if◌then◌else◌, nat_lt};
ghost use Rattle.oss_syntax.specs.declared.fault.FaultKind.TheVariants as fault;
ghost use Rattle.oss_machine.specs.Asks.{meant_ask};
ghost use Rattle.oss_free_tasks.specs.Deeds.{asked_deed, limited, within};
ghost use Rattle.oss_free_tasks.specs.declared.deed.Deed.TheVariants as deeds;

use crate::memory::value_at;
use oss_free_tasks::Deed;
use oss_machine::Ask;
use oss_model::FaultKind;

/// How many cells there are, how many ticks each task may do, how deep the task stands, and how many ticks it has done
/// and how many tasks it has created.
#[derive(Clone, Copy)]
pub(crate) struct Counts {
    pub(crate) cells: usize,
    pub(crate) fuel: u32,
    pub(crate) depth: usize,
    pub(crate) ticks: u32,
    pub(crate) created: u32,
}

/// This where the task may create one more, else the fault of the limit.
fn limited(counts: Counts, line: u32, passed: Deed) -> Deed
    ensures { result ≡ limited counts.depth counts.created line passed }
{
    if 64 <= counts.depth {
        Deed::Stops(FaultKind::TooDeep, line)
    } else if 65_535 <= counts.created {
        Deed::Stops(FaultKind::TooManyTasks, line)
    } else {
        passed
    }
}

/// This where the cell is there, else a fault.
fn within(counts: Counts, cell: u32, line: u32, passed: Deed) -> Deed
    ensures { result ≡ within counts.cells cell line passed }
{
    if (cell as usize) < counts.cells {
        passed
    } else {
        Deed::Stops(FaultKind::NoRight, line)
    }
}

/// A tick, if there is fuel for it.
fn ticking(counts: Counts, line: u32) -> Deed
    ensures { result ≡ (if nat_lt counts.ticks counts.fuel then deeds.Ticks else deeds.Stops fault.OutOfFuel line) }
{
    if counts.ticks < counts.fuel {
        Deed::Ticks
    } else {
        Deed::Stops(FaultKind::OutOfFuel, line)
    }
}

/// What the ask, whose fault belongs to this line, comes to for a task with these counts over these cells.
pub(crate) fn deed_of(counts: Counts, cells: &[u64], ask: &Ask, line: u32) -> Deed
    ensures { result ≡ asked_deed counts.cells counts.fuel counts.depth counts.ticks counts.created cells.now
        (meant_ask ask.now) line }
{
    match ask {
        Ask::Begin => limited(counts, line, Deed::Stops(FaultKind::TooManyTasks, line)),
        Ask::Tick => ticking(counts, line),
        Ask::Read(cell) => within(counts, *cell, line, Deed::Finds(value_at(cells, *cell))),
        Ask::Write(cell, _) => within(counts, *cell, line, Deed::Finds(0)),
        Ask::Fold(cell, _, _) => within(counts, *cell, line, Deed::Finds(0)),
        Ask::Create(_) => limited(counts, line, Deed::Creates),
        Ask::Await => Deed::Stops(FaultKind::TooManyTasks, line),
        Ask::Wait => Deed::Finds(0),
        Ask::WaitOn(_) => Deed::Finds(0),
        Ask::Release(_) => Deed::Finds(0),
        Ask::Print(_) => Deed::Finds(0),
        Ask::End => Deed::Ends,
        Ask::Fault(kind) => Deed::Stops(*kind, line),
    }
}
