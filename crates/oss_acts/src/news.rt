//! The messages that a seat holds are delivered, and the tasks are told whose counts became 0 by that.

ghost use Rattle.std.specs.Prelude.{◌≡◌, ◌≢◌, ◌≤◌, ◌<◌, ◌+◌, ◌*◌, ◌++◌, [], length, vec_capacity, OnOk, List as Items, ℕ};
ghost use Rattle.oss_acts.specs.News.{Delivers, told_by};
ghost use Rattle.oss_acts.specs.Working.{SameWork};

use oss_field::{Field, FieldSeat};
use std::alloc::AllocError;

/// Delivers all messages that a seat holds, and makes all joins among them: each task whose count became 0 by that is added
/// to the news. If memory is wanted for the news, what was delivered is told, the other messages are held still, and the
/// call may be made again.
pub fn deliver_all(
    field: &Field,
    seat: &mut FieldSeat,
    news: &mut Vec<u32>,
) -> Result<(), AllocError>
    requires field { seat.old.field ≡ field.now.table }
    ensures same { (seat.new.field ≡ seat.old.field) × (seat.new.id ≡ seat.old.id) }
    ensures all { OnOk result (seat.new.known.words.held ≡ []) }
    ensures work { SameWork seat.old.known seat.new.known }
    ensures delivers { (told : Items ℕ) × Delivers seat.old.known seat.new.known told ×
        (news.new.items ≡ news.old.items ++ told) }
{
    while seat.holding() {
        make_room(news)?;
        deliver_one(field, seat, news);
    }
    Ok(())
}

/// Makes room for one task more.
fn make_room(news: &mut Vec<u32>) -> Result<(), AllocError>
    ensures items { news.new.items ≡ news.old.items }
    ensures room { OnOk result (length news.new.items < vec_capacity news.new) }
{
    news.reserve(1)
}

/// Delivers the message that comes first, or makes its join. There is room for what it tells.
fn deliver_one(field: &Field, seat: &mut FieldSeat, news: &mut Vec<u32>)
    requires field { seat.old.field ≡ field.now.table }
    requires some { seat.old.known.words.held ≢ [] }
    requires room { length news.old.items < vec_capacity news.old }
    ensures same { (seat.new.field ≡ seat.old.field) × (seat.new.id ≡ seat.old.id) }
    ensures work { SameWork seat.old.known seat.new.known }
    ensures delivers { (told : Items ℕ) × Delivers seat.old.known seat.new.known told ×
        (news.new.items ≡ news.old.items ++ told) }
    ensures one { seat.new.known.words.delivered ≡ 1 + seat.old.known.words.delivered }
    ensures bounded { seat.new.known.words.delivered ≤ 6 * field.now.entries }
{
    match seat.next_join() {
        Some(entry) => field.fold(seat, entry),
        None => {
            let freed = field.deliver(seat);
            tell(news, freed);
        }
    }
}

/// Tells a task, if there is one. There is room for it.
fn tell(news: &mut Vec<u32>, freed: Option<u32>)
    requires room { length news.old.items < vec_capacity news.old }
    ensures told { news.new.items ≡ news.old.items ++ told_by freed }
{
    match freed {
        Some(task) => {
            let Ok(()) = news.push(task) else {
                unreachable!()
            };
        }
        None => {}
    }
}
