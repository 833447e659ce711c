//! What a run by waves did is noted, as moves of a schedule.

ghost use Rattle.std.specs.Prelude.{◌≡◌, ◌≤◌, ◌<◌, ℕ, length, IfOk, OnOk, Some, slice_get};
ghost use Rattle.oss_core.specs.Cores.{tasks_in};
ghost use Rattle.oss_core.specs.declared.passing.Passed.{Passed as Given};
ghost use Rattle.oss_core.specs.declared.turns.Turn.{Turn as Told};
ghost use Rattle.oss_waves.specs.Noting.{IsGivenOf, IsStepOf, Notes};

use oss_core::{Core, Passed, Turn};
use oss_deps::Deps;
use oss_sched::TextMove;
use oss_syntax::List;
use std::alloc::AllocError;

/// The move of a turn. Want of memory is the one error.
fn step_of<D: Deps>(core: &Core<D>, turn: &Turn) -> Result<TextMove, AllocError>
    requires { turn.now.task.0 < length (tasks_in core.now) }
    ensures { IfOk result (λ what. IsStepOf (tasks_in core.now) turn.now what) }
{
    let point = core.point(turn.task).copy()?;
    Ok(TextMove::Step(point, turn.acts))
}

/// The move of neighbouring cells that were given up in one way. Want of memory is the one error.
fn given_of<D: Deps>(core: &Core<D>, one: &Passed) -> Result<TextMove, AllocError>
    requires there { one.now.task.0 < length (tasks_in core.now) }
    requires rises { one.now.range.lo ≤ one.now.range.hi }
    ensures { IfOk result (λ what. IsGivenOf (tasks_in core.now) one.now what) }
{
    let point = core.point(one.task).copy()?;
    let first = one.range.lo;
    let count = one.range.hi - first;
    if one.joined {
        Ok(TextMove::Join(point, first, count))
    } else {
        Ok(TextMove::Let(point, first, count))
    }
}

/// Notes the turns of a wave behind all other moves. Want of memory is the one error.
pub(crate) fn note_turns<D: Deps>(
    core: &Core<D>,
    turns: &[Turn],
    lines: &mut List<TextMove>,
) -> Result<(), AllocError>
    requires { (at : ℕ) (turn : Told) → slice_get turns.now at ≡ Some turn → turn.task.0 < length (tasks_in core.now) }
    ensures { OnOk result (Notes (IsStepOf (tasks_in core.now)) turns.now lines.old lines.new) }
{
    for turn in turns {
        let what = step_of(core, turn)?;
        lines.push(what)?;
    }
    Ok(())
}

/// Notes what a pass has given up behind all other moves. Want of memory is the one error.
pub(crate) fn note_passed<D: Deps>(
    core: &Core<D>,
    passed: &[Passed],
    lines: &mut List<TextMove>,
) -> Result<(), AllocError>
    requires there { (at : ℕ) (one : Given) → slice_get passed.now at ≡ Some one →
        one.task.0 < length (tasks_in core.now) }
    requires rise { (at : ℕ) (one : Given) → slice_get passed.now at ≡ Some one → one.range.lo ≤ one.range.hi }
    ensures { OnOk result (Notes (IsGivenOf (tasks_in core.now)) passed.now lines.old lines.new) }
{
    for one in passed {
        let what = given_of(core, one)?;
        lines.push(what)?;
    }
    Ok(())
}
