//! How far a part goes.

ghost use Rattle.std.specs.Prelude.{◌≡◌, ◌+◌, ◌<◌, true, not};
ghost use Rattle.oss_wave_laws.specs.Parts.{is_tick, one_tick, stops_before};
ghost use Rattle.oss_body.specs.Acts.{act_seen, goes_on};

use oss_body::Act;

/// Whether a part goes on over the act, after so many acts and ticks of it: it stops before a fault, before a
/// tick more than the quota, and before a wait that is not its first act.
pub(crate) fn may_go(act: &Act, count: u64, ticks: u32, quota: u32) -> bool
    ensures stops { stops_before (act_seen act.now) count ticks quota ≡ not result }
    ensures goes { result ≡ true → goes_on act.now ≡ true }
{
    match act {
        Act::Tick => ticks < quota,
        Act::Await => count == 0,
        Act::Wait => count == 0,
        Act::WaitOn(_) => count == 0,
        Act::Load(_) => true,
        Act::Store(_, _) => true,
        Act::Fold { .. } => true,
        Act::Create { .. } => true,
        Act::Release { .. } => true,
        Act::Print { .. } => true,
        Act::End => true,
        Act::Fault { .. } => false,
    }
}

/// How many ticks a part has with this act. Condition: one tick more is within the quota, if the act is one.
pub(crate) fn ticks_with(act: &Act, ticks: u32, quota: u32) -> u32
    requires { is_tick (act_seen act.now) ≡ true → ticks < quota }
    ensures { result ≡ ticks + one_tick (act_seen act.now) }
{
    match act {
        Act::Tick => ticks + 1,
        Act::Load(_) => ticks,
        Act::Store(_, _) => ticks,
        Act::Fold { .. } => ticks,
        Act::Create { .. } => ticks,
        Act::Await => ticks,
        Act::Wait => ticks,
        Act::WaitOn(_) => ticks,
        Act::Release { .. } => ticks,
        Act::Print { .. } => ticks,
        Act::End => ticks,
        Act::Fault { .. } => ticks,
    }
}
