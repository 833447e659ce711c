//! The acts of a job, one by one, by the calls of a field.

ghost use Rattle.std.specs.Prelude.{◌≡◌, ◌<◌, ◌≤◌, false, length, [], IfOk, OnOk, box_value, None};
ghost use Rattle.oss_body.specs.declared.act.Act.TheVariants as acts;
ghost use Rattle.oss_body.specs.Mains.{code_main};
ghost use Rattle.oss_body.specs.Relation.{is_over, pending_of};
ghost use Rattle.oss_field_tests.specs.Trials.{Idles, Works};
ghost use Rattle.oss_jobs.specs.Jobs.{IsJob, body_of};

use oss_body::{Act, main_body};
use oss_code::Code;
use oss_field::{Field, FieldSeat};
use oss_jobs::Job;
use std::alloc::{AllocError, Global};

/// The job of main at its start.
pub(crate) fn main_job(alloc: Global, code: &Code, fuel: u32) -> Result<Box<Job>, AllocError>
    requires cells { length code.now.first ≤ 1048576 }
    ensures job { IfOk result (λ job. IsJob code.now [] (box_value job) 0
        (record { start = code_main code.now fuel; found = [] }) (λ y. None)) }
{
    let body = main_body(alloc, code, fuel)?;
    let accesses = body.accesses()?;
    let job = Job::new(alloc, body, &accesses)?;
    Ok(Box::new(alloc, job)?)
}

/// The load of a cell that stands next in a job: what was found.
fn load(
    field: &Field,
    seat: &mut FieldSeat,
    job: &mut Job,
    code: &Code,
    cell: u32,
) -> Result<u64, AllocError>
    requires field { (seat.old.field ≡ field.now.table) × (field.now.code ≡ code.now) }
    requires works { Works code.now job.old seat.old.known }
    requires running { is_over (body_of job.old) ≡ false }
    requires pending { pending_of (body_of job.old) ≡ acts.Load cell }
    ensures same { seat.new.field ≡ seat.old.field }
    ensures works { OnOk result (Works code.now job.new seat.new.known) }
{
    let found = field.load(seat, job, cell);
    job.advance(code, found)?;
    Ok(found)
}

/// The store that stands next in a job: what was stored.
fn store(
    field: &Field,
    seat: &mut FieldSeat,
    job: &mut Job,
    code: &Code,
    cell: u32,
    value: u64,
) -> Result<u64, AllocError>
    requires field { (seat.old.field ≡ field.now.table) × (field.now.code ≡ code.now) }
    requires works { Works code.now job.old seat.old.known }
    requires running { is_over (body_of job.old) ≡ false }
    requires pending { pending_of (body_of job.old) ≡ acts.Store cell value }
    ensures same { seat.new.field ≡ seat.old.field }
    ensures works { OnOk result (Works code.now job.new seat.new.known) }
{
    field.store(seat, job, cell, value);
    job.advance(code, 0)?;
    Ok(value)
}

/// The next act of a job, if it is a load or a store: what was found or stored. `None` if it is another act, or the
/// body has ended.
fn touch(
    field: &Field,
    seat: &mut FieldSeat,
    job: &mut Job,
    code: &Code,
) -> Result<Option<u64>, AllocError>
    requires field { (seat.old.field ≡ field.now.table) × (field.now.code ≡ code.now) }
    requires works { Works code.now job.old seat.old.known }
    ensures same { seat.new.field ≡ seat.old.field }
    ensures works { OnOk result (Works code.now job.new seat.new.known) }
{
    if job.body().ended() {
        return Ok(None);
    }
    match job.body().pending() {
        Act::Load(cell) => {
            let cell = *cell;
            Ok(Some(load(field, seat, job, code, cell)?))
        }
        Act::Store(cell, value) => {
            let cell = *cell;
            let value = *value;
            Ok(Some(store(field, seat, job, code, cell, value)?))
        }
        _ => Ok(None),
    }
}

/// Takes the job of a task, makes its next touch, and puts the job back: what was found or stored. `None` if the job
/// was not there, or its next act is no touch.
pub(crate) fn touch_once(
    field: &Field,
    seat: &mut FieldSeat,
    code: &Code,
    task: u32,
) -> Result<Option<u64>, AllocError>
    requires field { (seat.old.field ≡ field.now.table) × (field.now.code ≡ code.now) }
    requires inside { task < field.now.entries }
    requires idles { Idles seat.old.known }
    ensures same { seat.new.field ≡ seat.old.field }
    ensures idles { OnOk result (Idles seat.new.known) }
{
    let Some(mut job) = field.take_body(seat, task) else {
        return Ok(None);
    };
    match touch(field, seat, &mut job, code) {
        Ok(found) => {
            field.put_body(seat, job);
            Ok(found)
        }
        Err(why) => {
            drop(job);
            Err(why)
        }
    }
}

/// Splits a seat, draws so many entries by the new one, and joins it again: the first that was drawn.
pub(crate) fn draw_apart(
    alloc: Global,
    field: &Field,
    seat: &mut FieldSeat,
    count: u32,
) -> Result<Option<u32>, AllocError>
    requires field { seat.old.field ≡ field.now.table }
    requires first { (seat.old.id ≡ 0) × (1 < seat.old.known.words.parts) }
    requires few { seat.old.known.words.splits < 65536 }
    requires draws { seat.old.known.words.failed ≡ 0 }
    requires most { (0 < count) × (count ≤ 16777216) }
    ensures same { seat.new.field ≡ seat.old.field }
    ensures draws { OnOk result (seat.new.known.words.failed ≡ 0) }
{
    let mut other = field.split(alloc, seat)?;
    let found = field.draw(&mut other, count);
    field.join(seat, other);
    Ok(found)
}
