//! The waits of a job: each is done once the seat finds that what it waits for is done.

ghost use Rattle.std.specs.Prelude.{◌≡◌, ℕ, Bool, true, false, None, IfOk, OnErr};
ghost use Rattle.oss_body.specs.declared.act.Act.TheVariants as acts;
ghost use Rattle.oss_body.specs.Relation.{is_over, pending_of};
ghost use Rattle.oss_jobs.specs.Jobs.{body_of};
ghost use Rattle.oss_machine.specs.Frames.{CodeScript};
ghost use Rattle.oss_model.specs.Bodies.{Body as Meant};
ghost use Rattle.oss_acts.specs.Working.{HasActed, IsAt, Works};
ghost use Rattle.oss_endings.specs.Ending.{IsNewestUndone, IsUndone};

use crate::looking::{all_done, newest_done};
use oss_code::Code;
use oss_field::{Field, FieldSeat};
use oss_jobs::Job;
use std::alloc::AllocError;

/// Does the `taskwait` that stands next in a job with which the seat works, if the seat finds that all children are done:
/// whether it did. If they are not, or memory is wanting, the job is before the wait still, and the call may be made again.
pub fn wait(
    field: &Field,
    code: &Code,
    seat: &mut FieldSeat,
    job: &mut Job,
) -> Result<bool, AllocError>
    requires field { IsAt field.now seat.old.field }
    requires code { field.now.code ≡ code.now }
    requires works { (x : Meant CodeScript) × Works field.now.code job.old x seat.old.known }
    requires running { is_over (body_of job.old) ≡ false }
    requires pending { pending_of (body_of job.old) ≡ acts.Wait }
    ensures same { (seat.new.field ≡ seat.old.field) × (seat.new.id ≡ seat.old.id) }
    ensures acted { IfOk result (λ met. met ≡ true →
        HasActed field.now.code job.old job.new 0 seat.old.known seat.new.known) }
    ensures waits { IfOk result (λ met. met ≡ false → (job.new ≡ job.old) × IsUndone job.new seat.new.known None ×
        ((x : Meant CodeScript) → Works field.now.code job.old x seat.old.known →
        Works field.now.code job.new x seat.new.known)) }
    ensures stays { OnErr result ((x : Meant CodeScript) → Works field.now.code job.old x seat.old.known →
        Works field.now.code job.new x seat.new.known) }
    ensures before { OnErr result ((pending_of (body_of job.new) ≡ pending_of (body_of job.old)) ×
        (is_over (body_of job.new) ≡ false)) }
{
    if !all_done(field, seat, job, None) {
        return Ok(false);
    }
    job.advance(code, 0)?;
    Ok(true)
}

/// Does the wait for the last task that stands next in a job with which the seat works, if the seat finds that this task is
/// done: whether it did. If it is not, or memory is wanting, the job is before the wait still, and the call may be made
/// again.
pub fn await_last(
    field: &Field,
    code: &Code,
    seat: &mut FieldSeat,
    job: &mut Job,
) -> Result<bool, AllocError>
    requires field { IsAt field.now seat.old.field }
    requires code { field.now.code ≡ code.now }
    requires works { (x : Meant CodeScript) × Works field.now.code job.old x seat.old.known }
    requires running { is_over (body_of job.old) ≡ false }
    requires pending { pending_of (body_of job.old) ≡ acts.Await }
    ensures same { (seat.new.field ≡ seat.old.field) × (seat.new.id ≡ seat.old.id) }
    ensures acted { IfOk result (λ met. met ≡ true →
        HasActed field.now.code job.old job.new 0 seat.old.known seat.new.known) }
    ensures waits { IfOk result (λ met. met ≡ false → (job.new ≡ job.old) × IsNewestUndone job.new seat.new.known ×
        ((x : Meant CodeScript) → Works field.now.code job.old x seat.old.known →
        Works field.now.code job.new x seat.new.known)) }
    ensures stays { OnErr result ((x : Meant CodeScript) → Works field.now.code job.old x seat.old.known →
        Works field.now.code job.new x seat.new.known) }
    ensures before { OnErr result ((pending_of (body_of job.new) ≡ pending_of (body_of job.old)) ×
        (is_over (body_of job.new) ≡ false)) }
{
    if !newest_done(field, seat, job) {
        return Ok(false);
    }
    job.advance(code, 0)?;
    Ok(true)
}
