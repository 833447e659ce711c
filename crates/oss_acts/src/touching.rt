//! The acts of a job that make no task and wait for nothing: touches of cells, and acts of its own.

ghost use Rattle.std.specs.Prelude.{◌≡◌, ℕ, false, true, IfOk, OnOk};
ghost use Rattle.oss_body.specs.declared.act.Act.TheVariants as acts;
ghost use Rattle.oss_body.specs.Relation.{is_over, pending_of};
ghost use Rattle.oss_jobs.specs.Jobs.{body_of};
ghost use Rattle.oss_machine.specs.Frames.{CodeScript};
ghost use Rattle.oss_model.specs.Bodies.{Body as Meant};
ghost use Rattle.oss_acts.specs.Touching.{is_own};
ghost use Rattle.oss_acts.specs.Working.{HasActed, IsAt, Works};

use oss_body::memory::{combined, word};
use oss_code::Code;
use oss_field::{Field, FieldSeat};
use oss_jobs::Job;
use oss_syntax::Op;
use std::alloc::AllocError;

/// Does the act of its own that stands next in a job with which the seat works. If it is out of memory, the job is as it
/// was.
pub fn go_alone(code: &Code, seat: &FieldSeat, job: &mut Job) -> Result<(), AllocError>
    requires works { (x : Meant CodeScript) × Works code.now job.old x seat.now.known }
    requires running { is_over (body_of job.old) ≡ false }
    requires own { is_own (pending_of (body_of job.old)) ≡ true }
    ensures acted { OnOk result (HasActed code.now job.old job.new 0 seat.now.known seat.now.known) }
{
    job.advance(code, 0)?;
    Ok(())
}

/// Does the load of a cell that stands next in a job with which the seat works: what it found.
pub fn load(
    field: &Field,
    code: &Code,
    seat: &mut FieldSeat,
    job: &mut Job,
    cell: u32,
) -> Result<u64, AllocError>
    requires field { IsAt field.now seat.old.field }
    requires code { field.now.code ≡ code.now }
    requires works { (x : Meant CodeScript) × Works field.now.code job.old x seat.old.known }
    requires running { is_over (body_of job.old) ≡ false }
    requires pending { pending_of (body_of job.old) ≡ acts.Load cell }
    ensures same { (seat.new.field ≡ seat.old.field) × (seat.new.id ≡ seat.old.id) }
    ensures acted { IfOk result (λ found. HasActed field.now.code job.old job.new found seat.old.known seat.new.known) }
    ensures failed { OnOk result (seat.new.known.words.failed ≡ seat.old.known.words.failed) }
{
    let found = field.load(seat, job, cell);
    job.advance(code, found)?;
    Ok(found)
}

/// Does the store of a cell that stands next in a job with which the seat works.
pub fn store(
    field: &Field,
    code: &Code,
    seat: &mut FieldSeat,
    job: &mut Job,
    cell: u32,
    value: u64,
) -> Result<(), AllocError>
    requires field { IsAt field.now seat.old.field }
    requires code { field.now.code ≡ code.now }
    requires works { (x : Meant CodeScript) × Works field.now.code job.old x seat.old.known }
    requires running { is_over (body_of job.old) ≡ false }
    requires pending { pending_of (body_of job.old) ≡ acts.Store cell value }
    ensures same { (seat.new.field ≡ seat.old.field) × (seat.new.id ≡ seat.old.id) }
    ensures acted { OnOk result (HasActed field.now.code job.old job.new 0 seat.old.known seat.new.known) }
    ensures failed { OnOk result (seat.new.known.words.failed ≡ seat.old.known.words.failed) }
{
    field.store(seat, job, cell, value);
    job.advance(code, 0)?;
    Ok(())
}

/// Does the fold into a cell that stands next in a job with which the seat works: it loads what the cell is, and stores what
/// the fold makes of that. No other task changes the cell meanwhile.
pub fn fold(
    field: &Field,
    code: &Code,
    seat: &mut FieldSeat,
    job: &mut Job,
    cell: u32,
    op: Op,
    value: u64,
) -> Result<(), AllocError>
    requires field { IsAt field.now seat.old.field }
    requires code { field.now.code ≡ code.now }
    requires works { (x : Meant CodeScript) × Works field.now.code job.old x seat.old.known }
    requires running { is_over (body_of job.old) ≡ false }
    requires pending { pending_of (body_of job.old) ≡ acts.Fold cell op value false }
    ensures same { (seat.new.field ≡ seat.old.field) × (seat.new.id ≡ seat.old.id) }
    ensures acted { OnOk result (HasActed field.now.code job.old job.new 0 seat.old.known seat.new.known) }
    ensures failed { OnOk result (seat.new.known.words.failed ≡ seat.old.known.words.failed) }
{
    let found = field.load(seat, job, cell);
    let made = combined(op, found, word(value));
    field.store(seat, job, cell, made);
    job.advance(code, 0)?;
    Ok(())
}
