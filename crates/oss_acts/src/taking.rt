//! A job is taken to be worked with, and put back.

ghost use Rattle.std.specs.Prelude.{◌≡◌, ◌<◌, box_value, IfNone, IfSome};
ghost use Rattle.oss_machine.specs.Frames.{CodeScript};
ghost use Rattle.oss_model.specs.Bodies.{Body as Meant};
ghost use Rattle.oss_acts.specs.Working.{IsAt, Rests, Works};

use oss_body::main_is_set;
use oss_code::Code;
use oss_field::{Field, FieldSeat};
use oss_jobs::Job;

/// Takes the job of a task, by a seat that has no work: the seat works with it from then on. `None` exactly where
/// `Field::take_body` has it; the seat has no work then. The fuel is that of the field.
pub fn take(
    field: &Field,
    code: &Code,
    fuel: u32,
    seat: &mut FieldSeat,
    task: u32,
) -> Option<Box<Job>>
    requires field { IsAt field.now seat.old.field }
    requires code { field.now.code ≡ code.now }
    requires fuel { field.now.fuel ≡ fuel }
    requires inside { task < field.now.entries }
    requires rests { Rests seat.old.known }
    ensures same { (seat.new.field ≡ seat.old.field) × (seat.new.id ≡ seat.old.id) }
    ensures works { IfSome result (λ job. (x : Meant CodeScript) × Works field.now.code (box_value job) x seat.new.known) }
    ensures rests { IfNone result (Rests seat.new.known) }
    ensures failed { seat.new.known.words.failed ≡ seat.old.known.words.failed }
{
    main_is_set(code, fuel);
    field.take_body(seat, task)
}

/// Puts the job back with which the seat works: the seat has no work then.
pub fn put(field: &Field, seat: &mut FieldSeat, job: Box<Job>)
    requires field { IsAt field.now seat.old.field }
    requires works { (x : Meant CodeScript) × Works field.now.code (box_value job) x seat.old.known }
    ensures same { (seat.new.field ≡ seat.old.field) × (seat.new.id ≡ seat.old.id) }
    ensures rests { Rests seat.new.known }
    ensures failed { seat.new.known.words.failed ≡ seat.old.known.words.failed }
{
    field.put_body(seat, job);
}
