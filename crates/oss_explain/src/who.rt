//! Who acts where a run stands, and how that task came to be.

ghost use Rattle.std.specs.Prelude.{◌≡◌, ◌++◌, ◌∷◌, [], length, reverse, IfOk, OnOk};
ghost use Rattle.oss_body.specs.Acts.{act_seen};
ghost use Rattle.oss_model.specs.Bodies.{IsHalt};
ghost use Rattle.oss_explain.specs.Telling.{IsKeyOf, IsWho, explained_by};
ghost use Rattle.oss_explain.specs.Ways.{links_to};

use crate::begun::Begun;
use crate::ledger::Ledger;
use crate::told::Told;
use oss_body::Act;
use oss_explanation::{Explained, Link};
use oss_model::Point;
use oss_syntax::List;
use std::alloc::{AllocError, Global};

/// The task that acts: its point, that of the task that it would create next, and how it came to be.
pub(crate) struct Who {
    pub(crate) task: Point,
    pub(crate) next: Point,
    pub(crate) chain: List<Link>,
}

// By hand, so that who lets one go calls this, and does not take it apart at each exit.
impl Drop for Who {
    fn drop(self) {
        let Who { task, next, chain } = self;
        drop(task);
        drop(next);
        drop(chain);
    }
}

impl Who {
    /// The explanation of a fault of the task on this line, of which this is told.
    pub(crate) fn explained(self, told: Told, line: u32) -> Explained
        ensures { result ≡ explained_by self told line }
    {
        let Who { task, next, chain } = self;
        let Told {
            deed,
            reason,
            holds,
            wants,
        } = told;
        Explained {
            task,
            next,
            line,
            deed,
            reason,
            chain,
            holds,
            wants,
        }
    }
}

/// The task that acts where this fault stands next, by what is noted. Out of memory is the one error.
pub(crate) fn who_of(alloc: Global, act: &Act, ledger: &Ledger) -> Result<Who, AllocError>
    requires { IsHalt (act_seen act.now) }
    ensures { IfOk result (λ who. IsWho ledger.now act.now who) }
{
    let task = ledger.top.point.copy()?;
    let next = match next_of(act) {
        Ok(next) => next,
        Err(full) => {
            drop(task);
            return Err(full);
        }
    };
    match chain_of(alloc, ledger) {
        Ok(chain) => Ok(Who { task, next, chain }),
        Err(full) => {
            drop(next);
            drop(task);
            Err(full)
        }
    }
}

/// The point of the task that the one which acts would create next: it is the key of the fault.
fn next_of(act: &Act) -> Result<Point, AllocError>
    requires { IsHalt (act_seen act.now) }
    ensures { IfOk result (λ next. IsKeyOf act.now next) }
{
    match act {
        Act::Fault { key, .. } => {
            // For its clause alone: the numbers are a point.
            let _numbers = key.as_slice();
            key.copy()
        }
        Act::Tick => unreachable!(),
        Act::Load(_) => unreachable!(),
        Act::Store(_, _) => unreachable!(),
        Act::Fold { .. } => unreachable!(),
        Act::Create { .. } => unreachable!(),
        Act::Await => unreachable!(),
        Act::Wait => unreachable!(),
        Act::WaitOn(_) => unreachable!(),
        Act::Release { .. } => unreachable!(),
        Act::Print { .. } => unreachable!(),
        Act::End => unreachable!(),
    }
}

/// How the task that acts came to be, and each one above it but main, the innermost first.
fn chain_of(alloc: Global, ledger: &Ledger) -> Result<List<Link>, AllocError>
    ensures { IfOk result (λ links. links ≡ links_to (ledger.now.top ∷ reverse ledger.now.above)) }
{
    let mut links = Vec::new(alloc);
    let above = ledger.above.as_slice();
    let mut left = above.len();
    if left > 0 {
        links.push(link(&ledger.top)?)?;
    }
    while left > 1 {
        left -= 1;
        links.push(link(&above[left])?)?;
    }
    Ok(List::from_vec(links))
}

/// How a task came to be.
fn link(begun: &Begun) -> Result<Link, AllocError>
    ensures { IfOk result (λ link. link ≡ record {
      task = begun.now.point;
      line = begun.now.line;
      entry = begun.now.entry;
      included = begun.now.included;
    }) }
{
    Ok(Link {
        task: begun.point.copy()?,
        line: begun.line,
        entry: begun.entry,
        included: begun.included,
    })
}
