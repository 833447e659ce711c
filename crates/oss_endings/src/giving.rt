//! The task of a job lets go of its cells, and at last of its own entry.

ghost use Rattle.std.specs.Prelude.{◌≡◌, ◌≢◌, ◌++◌, ℕ, Bool, true, false, [], List as Items, None, Some, IfOk, OnOk};
ghost use Rattle.oss_body.specs.Relation.{is_over};
ghost use Rattle.oss_field.specs.Giving.{IsSeenGiven};
ghost use Rattle.oss_jobs.specs.Jobs.{body_of, task_of};
ghost use Rattle.oss_machine.specs.Frames.{CodeScript};
ghost use Rattle.oss_model.specs.Bodies.{Body as Meant};
ghost use Rattle.oss_model.specs.Rights.{Holds};
ghost use Rattle.oss_syntax.specs.declared.access.Mode.{Mode as MeantMode};
ghost use Rattle.oss_syntax.specs.declared.access.Mode.TheVariants.{Fold};
ghost use Rattle.oss_syntax.specs.declared.access.Op.{Op};
ghost use Rattle.oss_acts.specs.Working.{IsAt, Works};
ghost use Rattle.oss_endings.specs.Ending.{AllGiven, IsSeenOpen, IsWaitMet, MayLetGo, entry_there, right_there};
ghost use Rattle.oss_endings.specs.Letting.{Lets};

use crate::looking::{is_given, look_at};
use oss_acts::deliver_all;
use oss_field::{Field, FieldSeat};
use oss_jobs::Job;
use oss_judge::Right;
use oss_syntax::Mode;
use std::alloc::AllocError;

/// Gives up a cell that is not one of a strong reduction, unless the seat finds that it is given up.
fn give_open(field: &Field, seat: &mut FieldSeat, job: &Job, cell: u32)
    requires field { IsAt field.now seat.old.field }
    requires works { (x : Meant CodeScript) × Works field.now.code job.now x seat.old.known }
    requires below { task_of job.now ≢ 0 }
    requires right { (mode : MeantMode) × (strong : Bool) × (right_there job.now cell ≡ Holds mode strong) }
    requires plain { (op : Op) → right_there job.now cell ≢ Holds (Fold op) true }
    requires may { MayLetGo job.now seat.old.known cell }
    requires empty { seat.old.known.words.held ≡ [] }
    ensures same { (seat.new.field ≡ seat.old.field) × (seat.new.id ≡ seat.old.id) }
    ensures works { (x : Meant CodeScript) × Works field.now.code job.now x seat.new.known }
    ensures lets { Lets field.now.code job.now seat.old.known seat.new.known [] }
{
    let given = look_at(field, seat, job, Some(cell)).given;
    if given {
        return;
    }
    field.give(seat, job, Some(cell));
}

/// Leaves the value of a strong reduction, unless the seat finds that it is left or the cell given up.
fn leave_open(field: &Field, seat: &mut FieldSeat, job: &Job, cell: u32)
    requires field { IsAt field.now seat.old.field }
    requires works { (x : Meant CodeScript) × Works field.now.code job.now x seat.old.known }
    requires below { task_of job.now ≢ 0 }
    requires right { (op : Op) × (right_there job.now cell ≡ Holds (Fold op) true) }
    requires over { is_over (body_of job.now) ≡ true }
    requires wait { IsWaitMet job.now seat.old.known }
    requires empty { seat.old.known.words.held ≡ [] }
    ensures same { (seat.new.field ≡ seat.old.field) × (seat.new.id ≡ seat.old.id) }
    ensures works { (x : Meant CodeScript) × Works field.now.code job.now x seat.new.known }
    ensures lets { Lets field.now.code job.now seat.old.known seat.new.known [] }
{
    let state = look_at(field, seat, job, Some(cell));
    let left = state.left;
    let given = state.given;
    if left {
        return;
    }
    if given {
        return;
    }
    let value = job.body().slot(cell);
    field.leave(seat, job, cell, value);
}

/// Gives up the own entry, unless the seat finds that it is given up.
fn give_own(field: &Field, seat: &mut FieldSeat, job: &Job)
    requires field { IsAt field.now seat.old.field }
    requires works { (x : Meant CodeScript) × Works field.now.code job.now x seat.old.known }
    requires below { task_of job.now ≢ 0 }
    requires over { is_over (body_of job.now) ≡ true }
    requires given { AllGiven job.now seat.old.known }
    requires empty { seat.old.known.words.held ≡ [] }
    ensures same { (seat.new.field ≡ seat.old.field) × (seat.new.id ≡ seat.old.id) }
    ensures works { (x : Meant CodeScript) × Works field.now.code job.now x seat.new.known }
    ensures lets { Lets field.now.code job.now seat.old.known seat.new.known [] }
{
    let given = look_at(field, seat, job, None).given;
    if given {
        return;
    }
    field.give(seat, job, None);
}

/// Gives up the own entry of a job's task that has ended, all of whose cells the seat has seen to be given up, and
/// delivers what that completes: whether the seat finds then that it is given up. The tasks whose counts became 0 are
/// added to the news. If it is out of memory, what was done is done, and the call may be made again.
pub fn give_up_own(
    field: &Field,
    seat: &mut FieldSeat,
    job: &Job,
    news: &mut Vec<u32>,
) -> Result<bool, AllocError>
    requires field { IsAt field.now seat.old.field }
    requires works { (x : Meant CodeScript) × Works field.now.code job.now x seat.old.known }
    requires below { task_of job.now ≢ 0 }
    requires over { is_over (body_of job.now) ≡ true }
    requires given { AllGiven job.now seat.old.known }
    ensures same { (seat.new.field ≡ seat.old.field) × (seat.new.id ≡ seat.old.id) }
    ensures works { (x : Meant CodeScript) × Works field.now.code job.now x seat.new.known }
    ensures lets { (told : Items ℕ) × Lets field.now.code job.now seat.old.known seat.new.known told ×
        (news.new.items ≡ news.old.items ++ told) }
    ensures empty { OnOk result (seat.new.known.words.held ≡ []) }
    ensures given { IfOk result (λ given. given ≡ true → IsSeenGiven seat.new.known (entry_there job.now None)) }
    ensures open { IfOk result (λ given. given ≡ false → IsSeenOpen seat.new.known (entry_there job.now None)) }
{
    deliver_all(field, seat, news)?;
    give_own(field, seat, job);
    deliver_all(field, seat, news)?;
    Ok(is_given(field, seat, job, None))
}

/// Gives up a cell of a job's task that has released it, or has ended with its clause `wait` met, and delivers what that
/// completes: whether the seat finds then that it is given up. It is none of a strong reduction. The tasks whose counts
/// became 0 are added to the news. If it is out of memory, what was done is done, and the call may be made again.
pub fn give_up_cell(
    field: &Field,
    seat: &mut FieldSeat,
    job: &Job,
    cell: u32,
    news: &mut Vec<u32>,
) -> Result<bool, AllocError>
    requires field { IsAt field.now seat.old.field }
    requires works { (x : Meant CodeScript) × Works field.now.code job.now x seat.old.known }
    requires below { task_of job.now ≢ 0 }
    requires right { (mode : MeantMode) × (strong : Bool) × (right_there job.now cell ≡ Holds mode strong) }
    requires plain { (op : Op) → right_there job.now cell ≢ Holds (Fold op) true }
    requires may { MayLetGo job.now seat.old.known cell }
    ensures same { (seat.new.field ≡ seat.old.field) × (seat.new.id ≡ seat.old.id) }
    ensures works { (x : Meant CodeScript) × Works field.now.code job.now x seat.new.known }
    ensures lets { (told : Items ℕ) × Lets field.now.code job.now seat.old.known seat.new.known told ×
        (news.new.items ≡ news.old.items ++ told) }
    ensures empty { OnOk result (seat.new.known.words.held ≡ []) }
    ensures given { IfOk result (λ given. given ≡ true → IsSeenGiven seat.new.known (entry_there job.now (Some cell))) }
    ensures open { IfOk result (λ given. given ≡ false → IsSeenOpen seat.new.known (entry_there job.now (Some cell))) }
{
    deliver_all(field, seat, news)?;
    give_open(field, seat, job, cell);
    deliver_all(field, seat, news)?;
    Ok(is_given(field, seat, job, Some(cell)))
}

/// Leaves the value of a strong reduction of a job's task that has ended with its clause `wait` met, and delivers what that
/// completes, its join too if it may be made: whether the seat finds then that the cell is given up. The tasks whose
/// counts became 0 are added to the news. If it is out of memory, what was done is done, and the call may be made again.
pub fn leave_cell(
    field: &Field,
    seat: &mut FieldSeat,
    job: &Job,
    cell: u32,
    news: &mut Vec<u32>,
) -> Result<bool, AllocError>
    requires field { IsAt field.now seat.old.field }
    requires works { (x : Meant CodeScript) × Works field.now.code job.now x seat.old.known }
    requires below { task_of job.now ≢ 0 }
    requires right { (op : Op) × (right_there job.now cell ≡ Holds (Fold op) true) }
    requires over { is_over (body_of job.now) ≡ true }
    requires wait { IsWaitMet job.now seat.old.known }
    ensures same { (seat.new.field ≡ seat.old.field) × (seat.new.id ≡ seat.old.id) }
    ensures works { (x : Meant CodeScript) × Works field.now.code job.now x seat.new.known }
    ensures lets { (told : Items ℕ) × Lets field.now.code job.now seat.old.known seat.new.known told ×
        (news.new.items ≡ news.old.items ++ told) }
    ensures empty { OnOk result (seat.new.known.words.held ≡ []) }
    ensures given { IfOk result (λ given. given ≡ true → IsSeenGiven seat.new.known (entry_there job.now (Some cell))) }
    ensures open { IfOk result (λ given. given ≡ false → IsSeenOpen seat.new.known (entry_there job.now (Some cell))) }
{
    deliver_all(field, seat, news)?;
    leave_open(field, seat, job, cell);
    deliver_all(field, seat, news)?;
    Ok(is_given(field, seat, job, Some(cell)))
}
