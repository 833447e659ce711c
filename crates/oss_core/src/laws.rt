//! What is left to do for a core falls: laws, each carried by a function that does nothing. A crate above calls
//! the function, and then has the law for the measure of its loop.

ghost use Rattle.oss_core.specs.CoreLeft.{CoreMovesFall, CorePassesFall, CoreRoundsFall, CoreWavesFall};

/// Each move leaves less to do.
pub fn core_moves_fall()
    ensures { CoreMovesFall }
{}

/// So does a wave in which a task has a turn.
pub fn core_waves_fall()
    ensures { CoreWavesFall }
{}

/// And a pass that gives up a cell.
pub fn core_passes_fall()
    ensures { CorePassesFall }
{}

/// And a round that begins where some move may be made.
pub fn core_rounds_fall()
    ensures { CoreRoundsFall }
{}
