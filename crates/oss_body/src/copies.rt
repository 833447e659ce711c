//! Copies of what a machine asks.
ghost use Rattle.std.specs.Prelude.{◌≡◌, IfOk};

use oss_code::TaskOrder;
use oss_syntax::List;
use std::alloc::{AllocError, Global};

/// A copy of these items.
pub(crate) fn copy_items<T: Copy>(alloc: Global, items: &[T]) -> Result<List<T>, AllocError>
    ensures { IfOk result (λ copy. copy ≡ items.now) }
{
    let items = Vec::from_slice(alloc, items)?;
    Ok(List::from_vec(items))
}

/// A copy of what a new task is to run.
pub(crate) fn copy_order(alloc: Global, order: &TaskOrder) -> Result<TaskOrder, AllocError>
    ensures { IfOk result (λ copy. copy ≡ order.now) }
{
    let copies = copy_items(alloc, order.copies.as_slice())?;
    let accesses = copy_items(alloc, order.accesses.as_slice())?;
    Ok(TaskOrder {
        entry: order.entry,
        copies,
        accesses,
        when: order.when,
        last: order.last,
        wait: order.wait,
        priority: order.priority,
    })
}
