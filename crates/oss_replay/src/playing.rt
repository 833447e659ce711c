//! A schedule is replayed.

ghost use Rattle.std.specs.Prelude.{◌≤◌, ℕ, IfOk, [], length};
ghost use Rattle.oss_code.specs.declared.code.CodeParts.{CodeParts};
ghost use Rattle.oss_core.specs.Cores.{kept_of};
ghost use Rattle.oss_core.specs.Kept.{IsRunning};
ghost use Rattle.oss_replay.specs.Making.{Replays};
ghost use Rattle.oss_replay.specs.Replays.{IsReplayed};

use crate::making::make;
use crate::replayed::Replayed;
use oss_code::Code;
use oss_core::Core;
use oss_deps::{Deps, PlainDeps};
use oss_sched::TextMove;
use oss_syntax::List;
use std::alloc::{AllocError, Global};

/// Replays a schedule on the task machine of a code, where each task has fuel for so many ticks. The moves are
/// made one after the other, as long as each is enabled. The answer is that of the definition; want of memory
/// is the one other answer. Condition: the code has at most 1,048,576 cells.
pub fn replay(
    alloc: Global,
    code: &Code,
    fuel: u32,
    moves: &List<TextMove>,
) -> Result<Replayed, AllocError>
    requires { length code.now.first ≤ 1048576 }
    ensures { IfOk result (λ replayed. IsReplayed code.now fuel moves.now replayed) }
{
    let mut core = Core::new(alloc, code, fuel, PlainDeps::new(alloc))?;
    play(&mut core, code, moves.as_slice())
}

/// Replays moves from the state for which the core stands.
fn play<D: Deps>(
    core: &mut Core<D>,
    code: &Code,
    moves: &[TextMove],
) -> Result<Replayed, AllocError>
    requires { IsRunning code.now (kept_of D.seen core.old) }
    ensures { IfOk result (λ replayed. Replays code.now (kept_of D.seen core.old) 1 moves.now replayed) }
{
    let mut number = 1u64;
    'moves: for what in moves {
        if !make(core, code, what)? {
            return Ok(Replayed::NotEnabled(number));
        }
        number += 1;
    }
    finish(core)
}

/// What comes of a replay whose moves were all made.
fn finish<D: Deps>(core: &mut Core<D>) -> Result<Replayed, AllocError>
    requires { (code : CodeParts) × IsRunning code (kept_of D.seen core.old) }
    ensures { IfOk result (λ replayed. (code : CodeParts) (number : ℕ) →
        Replays code (kept_of D.seen core.old) number [] replayed) }
{
    match core.answer()? {
        Some(answer) => Ok(Replayed::Answered(answer)),
        None => Ok(Replayed::Unfinished(core.unfinished())),
    }
}
