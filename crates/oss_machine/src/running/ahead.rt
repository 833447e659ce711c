//! How far a body has looked ahead.
ghost use Rattle.std.specs.Prelude.{◌≡◌, OnErr, OnOk};
ghost use Rattle.oss_machine.specs.Reaches.{IsKept, ahead_in, stands_in};
ghost use Rattle.oss_machine.specs.Runs.{IsCounted, IsRun, config_in, config_of};

use crate::running::body::{Reach, Run, Still};
use crate::running::commit::{begin, commit};
use std::alloc::AllocError;

/// What the body has gone on to takes the place of what stood: then the run is free. Otherwise nothing changes,
/// nor where memory is wanting.
pub(crate) fn land(
    still: &mut Still,
    run: &mut Run,
    reach: &mut Reach,
    open_count: &mut usize,
) -> Result<(), AllocError>
    requires { IsKept reach.old still.old run.old open_count.old }
    ensures kept { IsKept reach.new still.new run.new open_count.new }
    ensures stands { stands_in reach.new still.new run.new ≡ stands_in reach.old still.old run.old }
    ensures ahead { ahead_in reach.new still.new run.new ≡ ahead_in reach.old still.old run.old }
    ensures landed { OnOk result (config_of still.new ≡ stands_in reach.old still.old run.old) }
    ensures counted { OnOk result (IsCounted open_count.new (config_of still.new)) }
    ensures err { OnErr result (reach.new ≡ Reach.Moved) }
{
    match *reach {
        Reach::Moved => {
            let count = run.open_count;
            commit(still, run)?;
            *open_count = count;
            *reach = Reach::Unused;
            Ok(())
        }
        Reach::Unused => Ok(()),
        Reach::Ahead => Ok(()),
    }
}

/// Makes the run lie as far as the body has looked ahead.
pub(crate) fn ready(
    still: &Still,
    run: &mut Run,
    reach: Reach,
    open_count: usize,
) -> Result<(), AllocError>
    requires kept { IsKept reach still.now run.old open_count }
    requires counted { IsCounted open_count (config_of still.now) }
    ensures ahead { OnOk result (config_in still.now run.new ≡ ahead_in reach still.now run.old) }
    ensures run { OnOk result (IsRun still.now run.new) }
{
    match reach {
        Reach::Unused => {
            begin(still, run, open_count)?;
            Ok(())
        }
        Reach::Moved => Ok(()),
        Reach::Ahead => Ok(()),
    }
}
