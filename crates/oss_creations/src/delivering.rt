//! The messages of a seat that makes a task are delivered, whether or not there is memory.

ghost use Rattle.std.specs.Prelude.{◌≡◌, ◌≢◌, ◌≤◌, ◌+◌, ◌*◌, []};
ghost use Rattle.oss_acts.specs.Working.{SameWork};

use oss_field::{Field, FieldSeat};

/// Delivers all messages that a seat holds, and makes all joins among them. Each task whose count became 0 by that is told.
pub(crate) fn deliver_rest(field: &Field, seat: &mut FieldSeat, news: &mut Vec<u32>)
    requires field { seat.old.field ≡ field.now.table }
    ensures same { (seat.new.field ≡ seat.old.field) × (seat.new.id ≡ seat.old.id) }
    ensures all { seat.new.known.words.held ≡ [] }
    ensures work { SameWork seat.old.known seat.new.known }
{
    while seat.holding() {
        deliver_next(field, seat, news);
    }
}

/// Delivers the message that comes first, or makes its join.
fn deliver_next(field: &Field, seat: &mut FieldSeat, news: &mut Vec<u32>)
    requires field { seat.old.field ≡ field.now.table }
    requires some { seat.old.known.words.held ≢ [] }
    ensures same { (seat.new.field ≡ seat.old.field) × (seat.new.id ≡ seat.old.id) }
    ensures work { SameWork seat.old.known seat.new.known }
    ensures one { seat.new.known.words.delivered ≡ 1 + seat.old.known.words.delivered }
    ensures bounded { seat.new.known.words.delivered ≤ 6 * field.now.entries }
{
    match seat.next_join() {
        Some(entry) => field.fold(seat, entry),
        None => {
            let freed = field.deliver(seat);
            tell(news, freed);
        }
    }
}

/// Tells a task, if there is one. One for which there is neither room nor memory is not told.
pub(crate) fn tell(news: &mut Vec<u32>, freed: Option<u32>) {
    if let Some(task) = freed {
        match news.push(task) {
            Ok(()) => {}
            Err(_) => {}
        }
    }
}
