//! The creation of a task.

ghost use Rattle.std.specs.Prelude.{◌≡◌, ◌≢◌, ◌<◌, ◌≤◌, ◌+◌, ◌-◌, ℕ, [], false, true, box_value, IfNone, IfOk, IfSome, OnErr, OnOk};
ghost use Rattle.oss_body.specs.Acts.{creates};
ghost use Rattle.oss_body.specs.Relation.{is_over, pending_of};
ghost use Rattle.oss_code.specs.declared.code.CodeParts.{CodeParts};
ghost use Rattle.oss_jobs.specs.Entries.{cells_in};
ghost use Rattle.oss_jobs.specs.Jobs.{HasRoom, SameJob, body_of, cells_of, task_of};
ghost use Rattle.oss_machine.specs.Frames.{CodeScript};
ghost use Rattle.oss_model.specs.Bodies.{Body as Meant};
ghost use Rattle.oss_roles.specs.Alone.{with_answer};
ghost use Rattle.oss_creations.specs.Accesses.{Gives};
ghost use Rattle.oss_creations.specs.Creating.{HasBegunTask, HasDrawn, HasLinked, IsChild, IsMaking, OfNew};
ghost use Rattle.oss_acts.specs.Working.{HasActed, IsAt, SameWork, Works};
ghost use Rattle.oss_field.specs.Known.{Known};
ghost use Rattle.oss_creations.specs.Keeping.{HasMade, HasStayed, IsBehind, IsCreation, KeepsWork};

use crate::counting::count_of;
use crate::delivering::tell;
use crate::linking::{link_accesses, link_entry};
use oss_acts::deliver_all;
use oss_code::Code;
use oss_field::{Field, FieldSeat};
use oss_jobs::Job;
use oss_syntax::{Access, List, Mode};
use std::alloc::{AllocError, Global};

/// The job of the task whose creation stands next, which has no number yet, and the accesses of that task.
fn new_job(alloc: Global, code: &Code, job: &Job) -> Result<(Job, List<Access>), AllocError>
    requires running { is_over (body_of job.now) ≡ false }
    requires creates { creates (pending_of (body_of job.now)) ≡ true }
    ensures child { IfOk result (λ r. IsChild code.now job.now r.0) }
    ensures gives { IfOk result (λ r. OfNew code.now job.now (λ own. Gives own r.1)) }
    ensures cells { IfOk result (λ r. (cells_of r.0 ≡ cells_in r.1) × (cells_in r.1 ≤ 1048576)) }
{
    let body = job.body().child(code)?;
    let accesses = body.accesses()?;
    let new = Job::new(alloc, body, &accesses)?;
    Ok((new, accesses))
}

/// A job in a box, or the job is let go.
fn boxed(alloc: Global, job: Job) -> Result<Box<Job>, AllocError>
    ensures { IfOk result (λ it. box_value it ≡ job) }
{
    Ok(Box::new(alloc, job)?)
}

/// The new job gets its number.
fn number(new: &mut Job, task: u32)
    requires numbers { task + cells_of new.old < 16777216 }
    ensures child { (code : CodeParts) (job : Job) → IsChild code job new.old → IsChild code job new.new }
    ensures task { task_of new.new ≡ task }
{
    new.start(task);
}

/// The new job in its box gets its number.
fn numbered(new: Box<Job>, task: u32) -> Box<Job>
    requires numbers { task + cells_of (box_value new) < 16777216 }
    ensures child { (code : CodeParts) (job : Job) → IsChild code job (box_value new) → IsChild code job (box_value result) }
    ensures task { task_of (box_value result) ≡ task }
{
    let mut new = new;
    number(&mut new, task);
    new
}

/// Fills the count of a new task, whose entries are drawn.
fn begin(field: &Field, seat: &mut FieldSeat, job: &Job, accesses: &[Access], task: u32)
    requires field { IsAt field.now seat.old.field }
    requires running { is_over (body_of job.now) ≡ false }
    requires creates { creates (pending_of (body_of job.now)) ≡ true }
    requires new { OfNew field.now.code job.now (λ own. Gives own accesses.now) }
    requires drawn { HasDrawn field.now.code field.now.entries job.now task (1 + cells_in accesses.now) seat.old.known }
    ensures same { (seat.new.field ≡ seat.old.field) × (seat.new.id ≡ seat.old.id) }
    ensures begun { HasBegunTask field.now.code field.now.entries job.now task (task + 1 + cells_in accesses.now)
        seat.old.known seat.new.known }
{
    let count = count_of(job, accesses);
    field.set_count(seat, job, task, count);
}

/// Links all entries of a task that the seat makes.
fn link_all(
    field: &Field,
    seat: &mut FieldSeat,
    job: &Job,
    accesses: &[Access],
    task: u32,
    news: &mut Vec<u32>,
)
    requires field { IsAt field.now seat.old.field }
    requires new { OfNew field.now.code job.now (λ own. Gives own accesses.now) }
    requires making { IsMaking field.now.code field.now.entries job.now task 0 task (task + 1 + cells_in accesses.now)
        seat.old.known }
    ensures same { (seat.new.field ≡ seat.old.field) × (seat.new.id ≡ seat.old.id) }
    ensures linked { HasLinked task task (task + 1 + cells_in accesses.now) seat.old.known seat.new.known }
{
    link_entry(field, seat, job, task, Mode::Read, false, task, None, news);
    link_accesses(field, seat, job, accesses, task, news);
}

/// Opens a task that the seat makes, whose job is put and whose entries are all linked. If its count is 0 then, it is told.
fn open(
    field: &Field,
    seat: &mut FieldSeat,
    job: &mut Job,
    accesses: &List<Access>,
    task: u32,
    news: &mut Vec<u32>,
)
    requires field { IsAt field.now seat.old.field }
    requires room { HasRoom accesses.now job.old }
    requires new { OfNew field.now.code job.old (λ own. Gives own accesses.now) }
    requires making { IsMaking field.now.code field.now.entries job.old task 2 (task + 1 + cells_in accesses.now)
        (task + 1 + cells_in accesses.now) seat.old.known }
    ensures same { (seat.new.field ≡ seat.old.field) × (seat.new.id ≡ seat.old.id) }
    ensures opened { (m : IsMaking field.now.code field.now.entries job.old task 2 (task + 1 + cells_in accesses.now)
        (task + 1 + cells_in accesses.now) seat.old.known) →
        IsBehind field.now.code job.new m.holding.body seat.new.known }
    ensures body { body_of job.new ≡ body_of job.old }
    ensures failed { seat.new.known.words.failed ≡ seat.old.known.words.failed }
{
    job.note(task, accesses);
    let free = field.count_down(seat, job, task);
    tell(news, if free { Some(task) } else { None });
}

/// Makes a task, whose entries are drawn. There is room for it in the job of its creator.
fn make(
    field: &Field,
    seat: &mut FieldSeat,
    job: &mut Job,
    new: Box<Job>,
    accesses: &List<Access>,
    task: u32,
    news: &mut Vec<u32>,
)
    requires field { IsAt field.now seat.old.field }
    requires running { is_over (body_of job.old) ≡ false }
    requires creates { creates (pending_of (body_of job.old)) ≡ true }
    requires room { HasRoom accesses.now job.old }
    requires new { OfNew field.now.code job.old (λ own. Gives own accesses.now) }
    requires child { IsChild field.now.code job.old (box_value new) }
    requires number { task_of (box_value new) ≡ task }
    requires drawn { HasDrawn field.now.code field.now.entries job.old task (1 + cells_in accesses.now) seat.old.known }
    ensures same { (seat.new.field ≡ seat.old.field) × (seat.new.id ≡ seat.old.id) }
    ensures made { HasMade field.now.code job.old job.new seat.old.known seat.new.known }
    ensures body { body_of job.new ≡ body_of job.old }
    ensures failed { seat.new.known.words.failed ≡ seat.old.known.words.failed }
{
    let cells = accesses.as_slice();
    begin(field, seat, job, cells, task);
    link_all(field, seat, job, cells, task, news);
    field.put_first(seat, new);
    open(field, seat, job, accesses, task, news);
}

/// Draws a number for a new task of the job, and so many entries from it on. `None` if the field has too few.
fn draw_for(field: &Field, seat: &mut FieldSeat, job: &Job, count: u32) -> Option<u32>
    requires field { IsAt field.now seat.old.field }
    requires works { (x : Meant CodeScript) × Works field.now.code job.now x seat.old.known }
    requires held { seat.old.known.words.held ≡ [] }
    requires draws { seat.old.known.words.failed ≡ 0 }
    requires most { (0 < count) × (count ≤ 16777216) }
    ensures same { (seat.new.field ≡ seat.old.field) × (seat.new.id ≡ seat.old.id) }
    ensures keeps { KeepsWork seat.old.known seat.new.known }
    ensures drawn { IfSome result (λ t. HasDrawn field.now.code field.now.entries job.now t count seat.new.known) }
    ensures draws { IfSome result (λ t. seat.new.known.words.failed ≡ 0) }
    ensures none { IfNone result (seat.new.known.words.failed ≡ 1) }
{
    field.draw(seat, count)
}

/// Delivers all messages that the seat holds, and makes room for so many tasks to be told.
fn make_ready(
    field: &Field,
    seat: &mut FieldSeat,
    count: u32,
    news: &mut Vec<u32>,
) -> Result<(), AllocError>
    requires field { IsAt field.now seat.old.field }
    ensures same { (seat.new.field ≡ seat.old.field) × (seat.new.id ≡ seat.old.id) }
    ensures held { OnOk result (seat.new.known.words.held ≡ []) }
    ensures work { SameWork seat.old.known seat.new.known }
{
    deliver_all(field, seat, news)?;
    news.reserve(count as usize)?;
    Ok(())
}

/// Makes the task of a new job in a box, if there are so many entries for it.
fn create_boxed(
    field: &Field,
    seat: &mut FieldSeat,
    job: &mut Job,
    new: Box<Job>,
    accesses: &List<Access>,
    count: u32,
    news: &mut Vec<u32>,
) -> Result<Option<u32>, AllocError>
    requires field { IsAt field.now seat.old.field }
    requires works { (x : Meant CodeScript) × Works field.now.code job.old x seat.old.known }
    requires draws { seat.old.known.words.failed ≡ 0 }
    requires running { is_over (body_of job.old) ≡ false }
    requires creates { creates (pending_of (body_of job.old)) ≡ true }
    requires room { HasRoom accesses.now job.old }
    requires new { OfNew field.now.code job.old (λ own. Gives own accesses.now) }
    requires child { IsChild field.now.code job.old (box_value new) }
    requires cells { cells_of (box_value new) ≡ cells_in accesses.now }
    requires count { (count ≡ 1 + cells_in accesses.now) × (count ≤ 1048577) }
    ensures same { (seat.new.field ≡ seat.old.field) × (seat.new.id ≡ seat.old.id) }
    ensures created { IfOk result (λ r. IsCreation field.now.code job.old job.new seat.old.known seat.new.known r) }
    ensures stays { OnErr result (HasStayed field.now.code job.old job.new seat.old.known seat.new.known) }
    ensures draws { OnErr result (seat.new.known.words.failed ≡ 0) }
    ensures body { body_of job.new ≡ body_of job.old }
{
    match make_ready(field, seat, count, news) {
        Ok(()) => {}
        Err(why) => {
            drop(new);
            return Err(why);
        }
    }
    match draw_for(field, seat, job, count) {
        Some(task) => {
            let new = numbered(new, task);
            make(field, seat, job, new, accesses, task, news);
            Ok(Some(task))
        }
        None => {
            drop(new);
            Ok(None)
        }
    }
}

/// Makes the task of a new job, if there are entries for it.
fn create_as(
    alloc: Global,
    field: &Field,
    seat: &mut FieldSeat,
    job: &mut Job,
    new: Job,
    accesses: &List<Access>,
    news: &mut Vec<u32>,
) -> Result<Option<u32>, AllocError>
    requires field { IsAt field.now seat.old.field }
    requires works { (x : Meant CodeScript) × Works field.now.code job.old x seat.old.known }
    requires draws { seat.old.known.words.failed ≡ 0 }
    requires running { is_over (body_of job.old) ≡ false }
    requires creates { creates (pending_of (body_of job.old)) ≡ true }
    requires new { OfNew field.now.code job.old (λ own. Gives own accesses.now) }
    requires child { IsChild field.now.code job.old new }
    requires cells { (cells_of new ≡ cells_in accesses.now) × (cells_in accesses.now ≤ 1048576) }
    ensures same { (seat.new.field ≡ seat.old.field) × (seat.new.id ≡ seat.old.id) }
    ensures created { IfOk result (λ r. IsCreation field.now.code job.old job.new seat.old.known seat.new.known r) }
    ensures stays { OnErr result (HasStayed field.now.code job.old job.new seat.old.known seat.new.known) }
    ensures draws { OnErr result (seat.new.known.words.failed ≡ 0) }
    ensures body { body_of job.new ≡ body_of job.old }
{
    match job.reserve(accesses) {
        Ok(()) => {}
        Err(why) => {
            drop(new);
            return Err(why);
        }
    }
    let count = 1 + new.cells();
    let new = boxed(alloc, new)?;
    create_boxed(field, seat, job, new, accesses, count, news)
}

/// Makes the task whose creation stands next in the job that the seat works with: it draws the task's entries, links them,
/// puts the task's job, and opens the task. What it answers is the task's number. The machine has the task then, and the job
/// has noted it, and stands before the creation still: the next call with it is `go_past`. `None` if the field has fewer
/// entries left than the task wants: then the seat works with the job as before, but draws no more.
///
/// All memory is taken before the first entry is drawn. If it is out of memory, the seat works with the job as before,
/// and draws on: the call may be made again. Before it makes the task it delivers all messages that the seat
/// holds.
///
/// Each task whose count became 0 by these deliveries is added to the news, and so is the new task if its count is 0. There
/// is room for one task for each entry of the new one. If more are to be told, and memory is wanted for that, they are not
/// told. No clause says what is told.
pub fn create(
    alloc: Global,
    field: &Field,
    code: &Code,
    seat: &mut FieldSeat,
    job: &mut Job,
    news: &mut Vec<u32>,
) -> Result<Option<u32>, AllocError>
    requires field { IsAt field.now seat.old.field }
    requires code { field.now.code ≡ code.now }
    requires works { (x : Meant CodeScript) × Works field.now.code job.old x seat.old.known }
    requires draws { seat.old.known.words.failed ≡ 0 }
    requires running { is_over (body_of job.old) ≡ false }
    requires creates { creates (pending_of (body_of job.old)) ≡ true }
    ensures same { (seat.new.field ≡ seat.old.field) × (seat.new.id ≡ seat.old.id) }
    ensures created { IfOk result (λ r. IsCreation field.now.code job.old job.new seat.old.known seat.new.known r) }
    ensures stays { OnErr result (HasStayed field.now.code job.old job.new seat.old.known seat.new.known) }
    ensures draws { OnErr result (seat.new.known.words.failed ≡ 0) }
    ensures body { body_of job.new ≡ body_of job.old }
{
    let (new, accesses) = new_job(alloc, code, job)?;
    let created = create_as(alloc, field, seat, job, new, &accesses, news);
    drop(accesses);
    created
}

/// The job goes past the creation before which it stands, and whose task was made: the seat works with it again. If it is
/// out of memory, it stands before the creation still, and the call may be made again.
pub fn go_past(code: &Code, seat: &FieldSeat, job: &mut Job) -> Result<(), AllocError>
    requires made { (old : Job) × (k : Known) × HasMade code.now old job.old k seat.now.known }
    requires running { is_over (body_of job.old) ≡ false }
    requires creates { creates (pending_of (body_of job.old)) ≡ true }
    ensures acted { OnOk result ((old : Job) (k : Known) → HasMade code.now old job.old k seat.now.known →
        HasActed code.now old job.new 0 k seat.now.known) }
    ensures stays { OnErr result ((old : Job) (k : Known) → HasMade code.now old job.old k seat.now.known →
        HasMade code.now old job.new k seat.now.known) }
    ensures still { OnErr result ((is_over (body_of job.new) ≡ false) × (creates (pending_of (body_of job.new)) ≡ true)) }
{
    job.advance(code, 0)
}
