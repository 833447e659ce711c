//! Tasks that can step, in the order in which they would have their turns.

ghost use Rattle.std.specs.Prelude.{◌≡◌, ◌↔◌, ◌⊎◌, IsTrue, OnOk};
ghost use Rattle.std.proofs.Common.{rules};
ghost use Rattle.std.specs.Cmp.{partial_order_from_own_ties};
ghost use Rattle.std.specs.Cmp.Lexicographic.{slice_cmp};
ghost use Rattle.std.specs.Cmp.Rules.{comparing};
ghost use Rattle.oss_prior.specs.declared.ready.Ready.{Ready as One};
ghost use Rattle.oss_prior.specs.Choosing.{Has, IsFirstIn};
ghost use Rattle.std.specs.Ordering.{as_partial_cmp, flip_args, int_cmp, nat_cmp, on, then_cmp};

use oss_model::{Point, TaskNo};
use std::alloc::AllocError;
use std::cmp::Ordering;
use std::collections::BTreeSet;

/// A task that can step.
#[derive(PartialEq, Eq)]
pub(crate) struct Ready {
    pub(crate) priority: i64,
    pub(crate) point: Point,
    pub(crate) number: u64,
}

// By hand, so that who lets one go calls this, and does not take it apart at each exit.
impl Drop for Ready {
    fn drop(self) {
        let Ready {
            priority: _,
            point,
            number: _,
        } = self;
        drop(point);
    }
}

/// The greater priority comes first, and of equal ones the earlier point.
impl Ord for Ready {
    ghost cmp = { then_cmp (flip_args (on (λ r. r.priority) int_cmp)) (then_cmp (on (λ r. r.point) (slice_cmp nat_cmp))
        (on (λ r. r.number) nat_cmp)) };

    ghost total = { Prim.search (comparing, rules) };

    ghost matches_partial_cmp = { Prim.search (comparing, rules) };

    ghost matches_eq = { Prim.search (comparing, rules) };

    fn cmp(&self, other: &Ready) -> Ordering {
        other.priority.cmp(&self.priority).then(
            self.point
                .cmp(&other.point)
                .then(self.number.cmp(&other.number)),
        )
    }
}

impl PartialOrd for Ready {
    ghost partial_cmp = { as_partial_cmp (then_cmp (flip_args (on (λ r. r.priority) int_cmp)) (then_cmp (on (λ r. r.point)
        (slice_cmp nat_cmp)) (on (λ r. r.number) nat_cmp))) };

    ghost laws = { partial_order_from_own_ties (Prim.search (comparing, rules)) (Prim.search (comparing, rules)) };

    fn partial_cmp(&self, other: &Ready) -> Option<Ordering> {
        Some(self.cmp(other))
    }
}

/// Adds a task to those that can step.
pub(crate) fn add(queue: &mut BTreeSet<Ready>, one: Ready) -> Result<(), AllocError>
    ensures { OnOk result ((x : One) → Has queue.new x ↔ ((x ≡ one) ⊎ Has queue.old x)) }
{
    queue.insert(one)?;
    Ok(())
}

/// Takes a task out, and says whether it was there.
pub(crate) fn take_out(queue: &mut BTreeSet<Ready>, one: &Ready) -> bool
    ensures was { IsTrue result ↔ Has queue.old one.now }
    ensures left { (x : One) → Has queue.new x ↔ (Has queue.old x × (x ≡ one.now → ⊥)) }
{
    queue.remove(one)
}

/// Whether a task is one of these.
pub(crate) fn has(queue: &BTreeSet<Ready>, one: &Ready) -> bool
    ensures { IsTrue result ↔ Has queue.now one.now }
{
    queue.contains(one)
}

/// The first of these tasks, if there is one.
pub(crate) fn first_of(queue: &BTreeSet<Ready>) -> Option<TaskNo>
    ensures { IsFirstIn queue.now result }
{
    match queue.first() {
        Some(one) => Some(TaskNo(one.number)),
        None => None,
    }
}
