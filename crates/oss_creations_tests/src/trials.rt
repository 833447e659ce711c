//! The acts of jobs, one by one, each by a seat that has no work before it and after it.

ghost use Rattle.std.specs.Prelude.{◌≡◌, ◌<◌, ◌≤◌, false, true, length, [], IfOk, OnOk, IsTrue, box_value, None};
ghost use Rattle.oss_acts.specs.Working.{IsAt, Rests, Works};
ghost use Rattle.oss_body.specs.Acts.{creates};
ghost use Rattle.oss_body.specs.Mains.{code_main};
ghost use Rattle.oss_body.specs.Relation.{is_over, pending_of};
ghost use Rattle.oss_creations.specs.Keeping.{HasMade, HasStayed, IsCreation};
ghost use Rattle.oss_jobs.specs.Jobs.{IsJob, body_of};
ghost use Rattle.oss_machine.specs.Frames.{CodeScript};
ghost use Rattle.oss_model.specs.Bodies.{Body as Meant};

use oss_acts::{load, put, store, take};
use oss_body::{Act, main_body};
use oss_code::Code;
use oss_creations::{create, go_past};
use oss_field::{Field, FieldSeat};
use oss_jobs::Job;
use std::alloc::{AllocError, Global};

/// The job of main at its start.
pub(crate) fn main_job(alloc: Global, code: &Code, fuel: u32) -> Result<Box<Job>, AllocError>
    requires cells { length code.now.first ≤ 1048576 }
    ensures job { IfOk result (λ job. IsJob code.now [] (box_value job) 0
        (record { start = code_main code.now fuel; found = [] }) (λ y. None)) }
{
    let body = main_body(alloc, code, fuel)?;
    let accesses = body.accesses()?;
    let job = Job::new(alloc, body, &accesses)?;
    Ok(Box::new(alloc, job)?)
}

/// The next act of a job, if it is a load or a store: what was found or stored. `None` if it is another act, or the body
/// has ended.
fn touch(
    field: &Field,
    seat: &mut FieldSeat,
    job: &mut Job,
    code: &Code,
) -> Result<Option<u64>, AllocError>
    requires field { IsAt field.now seat.old.field }
    requires code { field.now.code ≡ code.now }
    requires works { (x : Meant CodeScript) × Works field.now.code job.old x seat.old.known }
    ensures same { seat.new.field ≡ seat.old.field }
    ensures works { OnOk result ((x : Meant CodeScript) × Works field.now.code job.new x seat.new.known) }
{
    if job.body().ended() {
        return Ok(None);
    }
    match job.body().pending() {
        Act::Load(cell) => {
            let cell = *cell;
            Ok(Some(load(field, code, seat, job, cell)?))
        }
        Act::Store(cell, value) => {
            let cell = *cell;
            let value = *value;
            store(field, code, seat, job, cell, value)?;
            Ok(Some(value))
        }
        _ => Ok(None),
    }
}

/// Whether the creation of a task stands next in a job.
fn stands_to_create(job: &Job) -> bool
    ensures { IsTrue result → (is_over (body_of job.now) ≡ false) × (creates (pending_of (body_of job.now)) ≡ true) }
{
    if job.body().ended() {
        return false;
    }
    match job.body().pending() {
        Act::Create { included, .. } => !*included,
        _ => false,
    }
}

/// The task whose creation stands next in a job is made: its number. `None` if another act stands there, or the field has
/// too few entries.
fn make(
    alloc: Global,
    field: &Field,
    seat: &mut FieldSeat,
    job: &mut Job,
    code: &Code,
    news: &mut Vec<u32>,
) -> Result<Option<u32>, AllocError>
    requires field { IsAt field.now seat.old.field }
    requires code { field.now.code ≡ code.now }
    requires works { (x : Meant CodeScript) × Works field.now.code job.old x seat.old.known }
    requires draws { seat.old.known.words.failed ≡ 0 }
    ensures same { seat.new.field ≡ seat.old.field }
    ensures works { OnOk result ((x : Meant CodeScript) × Works field.now.code job.new x seat.new.known) }
{
    if !stands_to_create(job) {
        return Ok(None);
    }
    match create(alloc, field, code, seat, job, news)? {
        Some(task) => {
            go_past(code, seat, job)?;
            Ok(Some(task))
        }
        None => Ok(None),
    }
}

/// Takes the job of a task, makes its next touch, and puts the job back: what was found or stored. `None` if the job was
/// not there, or its next act is no touch.
pub(crate) fn touch_once(
    field: &Field,
    seat: &mut FieldSeat,
    code: &Code,
    fuel: u32,
    task: u32,
) -> Result<Option<u64>, AllocError>
    requires field { IsAt field.now seat.old.field }
    requires code { field.now.code ≡ code.now }
    requires fuel { field.now.fuel ≡ fuel }
    requires inside { task < field.now.entries }
    requires rests { Rests seat.old.known }
    ensures same { seat.new.field ≡ seat.old.field }
    ensures rests { OnOk result (Rests seat.new.known) }
{
    let Some(mut job) = take(field, code, fuel, seat, task) else {
        return Ok(None);
    };
    match touch(field, seat, &mut job, code) {
        Ok(found) => {
            put(field, seat, job);
            Ok(found)
        }
        Err(why) => {
            drop(job);
            Err(why)
        }
    }
}

/// Takes the job of a task, makes the task whose creation stands next in it, and puts the job back: the number of the
/// new task. `None` if the job was not there, its next act is another, or the field has too few entries.
pub(crate) fn make_once(
    alloc: Global,
    field: &Field,
    seat: &mut FieldSeat,
    code: &Code,
    fuel: u32,
    task: u32,
    news: &mut Vec<u32>,
) -> Result<Option<u32>, AllocError>
    requires field { IsAt field.now seat.old.field }
    requires code { field.now.code ≡ code.now }
    requires fuel { field.now.fuel ≡ fuel }
    requires inside { task < field.now.entries }
    requires rests { Rests seat.old.known }
    requires draws { seat.old.known.words.failed ≡ 0 }
    ensures same { seat.new.field ≡ seat.old.field }
    ensures rests { OnOk result (Rests seat.new.known) }
{
    let Some(mut job) = take(field, code, fuel, seat, task) else {
        return Ok(None);
    };
    match make(alloc, field, seat, &mut job, code, news) {
        Ok(made) => {
            put(field, seat, job);
            Ok(made)
        }
        Err(why) => {
            drop(job);
            Err(why)
        }
    }
}
