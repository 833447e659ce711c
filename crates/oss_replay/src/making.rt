//! The moves of a schedule are made on a core, a part at a time.

ghost use Rattle.std.specs.Prelude.{◌≡◌, ◌<◌, IfOk, false, true};
ghost use Rattle.oss_core.specs.Cores.{kept_of};
ghost use Rattle.oss_core.specs.Kept.{IsRunning};
ghost use Rattle.oss_replay.specs.Making.{MakesMove, MakesPart, RefusesMove, RefusesPart};

use crate::parts::{part, parts_of, point_of};
use oss_code::Code;
use oss_core::{ApplyFault, Core};
use oss_deps::Deps;
use oss_sched::TextMove;
use std::alloc::AllocError;

/// Makes a move of a schedule, and tells whether it did: it does just where the move is enabled. A core of
/// which a move was not made has perhaps made some of its parts.
pub(crate) fn make<D: Deps>(
    core: &mut Core<D>,
    code: &Code,
    what: &TextMove,
) -> Result<bool, AllocError>
    requires { IsRunning code.now (kept_of D.seen core.old) }
    ensures made { IfOk result (λ made. made ≡ true →
        MakesMove code.now (kept_of D.seen core.old) (kept_of D.seen core.new) what.now) }
    ensures refused { IfOk result (λ made. made ≡ false → RefusesMove code.now (kept_of D.seen core.old) what.now) }
{
    match core.find(point_of(what).as_slice()) {
        Some(_) => {}
        None => return Ok(false),
    }
    'parts: for k in 0..parts_of(what) {
        if !make_part(core, code, what, k)? {
            return Ok(false);
        }
    }
    Ok(true)
}

/// Makes the part of a move with this number, counted from 0, and tells whether it did.
fn make_part<D: Deps>(
    core: &mut Core<D>,
    code: &Code,
    what: &TextMove,
    k: u64,
) -> Result<bool, AllocError>
    requires { IsRunning code.now (kept_of D.seen core.old) }
    ensures made { IfOk result (λ made. made ≡ true →
        MakesPart code.now (kept_of D.seen core.old) (kept_of D.seen core.new) what.now k) }
    ensures refused { IfOk result (λ made. made ≡ false → RefusesPart code.now (kept_of D.seen core.old) what.now k) }
{
    let task = match core.find(point_of(what).as_slice()) {
        Some(task) => task,
        None => return Ok(false),
    };
    let one = match part(what, task, k) {
        Some(one) => one,
        None => return Ok(false),
    };
    match core.apply(code, one) {
        Ok(()) => Ok(true),
        Err(ApplyFault::NotNow) => Ok(false),
        Err(ApplyFault::Memory(error)) => Err(error),
    }
}
