//! A place for what is told of each task, by its number.

ghost use Rattle.std.specs.Prelude.{◌≡◌, Some, slice_set, IfOk};
ghost use Rattle.oss_lacks.specs.Following.{IsOneMore, told_in, told_of};

use crate::creation::Creation;
use crate::lacks::TaskLacks;
use oss_syntax::List;
use oss_task_needs::Mending;
use std::alloc::{AllocError, Global};
use std::mem;

/// A place for one more task, of which nothing is told yet. Its number is handed out.
pub(crate) fn add_slot(slots: &mut Vec<Option<TaskLacks>>) -> Result<usize, AllocError>
    ensures { IfOk result (IsOneMore slots.old.items slots.new.items) }
{
    let number = slots.len();
    slots.push(None)?;
    Ok(number)
}

/// Puts what is told of a task that has ended into its place.
pub(crate) fn fill_slot(slots: &mut Vec<Option<TaskLacks>>, ended: Creation, mending: Mending)
    ensures { slots.new.items ≡ slice_set slots.old.items ended.number (Some (told_of ended mending)) }
{
    let number = ended.number;
    set_slot(slots, number, ended.told(mending));
}

/// Puts something into a place, if there is one with this number.
fn set_slot(slots: &mut Vec<Option<TaskLacks>>, number: usize, told: TaskLacks)
    ensures { slots.new.items ≡ slice_set slots.old.items number (Some told) }
{
    if number < slots.len() {
        drop(mem::replace(&mut slots[number], Some(told)));
    } else {
        drop(told);
    }
}

/// What is told of the tasks that have ended, by their numbers.
pub(crate) fn all_told(
    alloc: Global,
    slots: Vec<Option<TaskLacks>>,
) -> Result<List<TaskLacks>, AllocError>
    ensures { IfOk result (λ told. told ≡ told_in slots.items) }
{
    let told: Vec<TaskLacks> = slots.into_iter().filter_map(|slot| slot).collect(alloc)?;
    Ok(List::from_vec(told))
}
