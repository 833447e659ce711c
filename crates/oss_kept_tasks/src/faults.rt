//! The first fault of the program's order: the one with the least key.

ghost use Rattle.std.specs.Prelude.{◌≡◌, ◌<◌, ◌↔◌, ◌+◌, ℕ, length, IsTrue, List as Items, MatchOption};
ghost use Rattle.oss_model.specs.Order.{IsBefore};
ghost use Rattle.oss_syntax.specs.declared.fault.FaultKind.{FaultKind as Kind};
ghost use Rattle.oss_kept_tasks.specs.FirstFault.{AreKeyed, HasNoFault, IsFaultOf, IsFaultless, IsFirstFault, IsKeyedAt, IsLeastTo};

use crate::boxed_body::BoxedBody;
use crate::held::Held;
use oss_body::Act;
use oss_model::{FaultKind, Point};
use std::cmp::Ordering;

/// A fault before which a body stands.
#[derive(Drop)]
pub struct FaultSeen<'a> {
    pub kind: FaultKind,
    /// The line of the source.
    pub line: u32,
    /// The point of the act whose place the fault takes: the fault that is told is the one with the least key.
    pub key: &'a Point,
}

/// The fault before which a body stands; `None` exactly where it stands before none.
fn fault_seen(body: &BoxedBody) -> Option<FaultSeen<'_>>
    ensures { MatchOption result (HasNoFault body.now) (λ seen. IsFaultOf body.now seen.kind seen.line seen.key.now) }
{
    if body.ended() {
        return None;
    }
    match body.pending() {
        Act::Fault { kind, line, key } => Some(FaultSeen {
            kind: *kind,
            line: *line,
            key,
        }),
        Act::Tick => None,
        Act::Load(_) => None,
        Act::Store(_, _) => None,
        Act::Fold { .. } => None,
        Act::Create { .. } => None,
        Act::Await => None,
        Act::Wait => None,
        Act::WaitOn(_) => None,
        Act::Release { .. } => None,
        Act::Print { .. } => None,
        Act::End => None,
    }
}

/// Whether a key comes before that of the fault before which a body stands.
fn comes_before(key: &Point, body: &BoxedBody) -> bool
    ensures { (kind : Kind) (line : ℕ) (other : Items ℕ) → IsFaultOf body.now kind line other →
        (IsTrue result ↔ IsBefore key.now other) }
{
    match fault_seen(body) {
        Some(seen) => match key.cmp(seen.key) {
            Ordering::Less => true,
            Ordering::Equal => false,
            Ordering::Greater => false,
        },
        None => false,
    }
}

/// Which task stands before the fault with the least key, one more being looked at.
fn least_of(tasks: &[Held], least: Option<usize>, at: usize) -> Option<usize>
    requires there { at < length tasks.now }
    requires told { IsLeastTo tasks.now at least }
    ensures told { IsLeastTo tasks.now (at + 1) result }
    ensures keyed { IsKeyedAt tasks.now at }
{
    match fault_seen(&tasks[at].body) {
        Some(seen) => {
            // (its clauses tell that the key is a point)
            let _numbers = seen.key.as_slice();
            match least {
                Some(best) => {
                    if comes_before(seen.key, &tasks[best].body) {
                        Some(at)
                    } else {
                        Some(best)
                    }
                }
                None => Some(at),
            }
        }
        None => least,
    }
}

/// Which task stands before the fault with the least key; `None` exactly where none stands before a fault.
fn least_fault(tasks: &[Held]) -> Option<usize>
    ensures least { IsLeastTo tasks.now (length tasks.now) result }
    ensures keyed { AreKeyed tasks.now }
{
    let mut least = None;
    for at in 0..tasks.len() {
        least = least_of(tasks, least, at);
    }
    least
}

/// The first fault of the program's order among those before which these tasks stand: the one with the least key.
/// `None` exactly where no task stands before a fault. It takes no memory.
pub fn first_fault(tasks: &[Held]) -> Option<FaultSeen<'_>>
    ensures first { MatchOption result (IsFaultless tasks.now) (λ seen.
        IsFirstFault tasks.now seen.kind seen.line seen.key.now) }
    ensures keyed { AreKeyed tasks.now }
{
    match least_fault(tasks) {
        Some(at) => fault_seen(&tasks[at].body),
        None => None,
    }
}
