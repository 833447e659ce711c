//! How the act is made that an ask of a task is, before it is known whether the judge lets it pass.
ghost use Rattle.std.specs.Prelude.{◌≡◌, ◌≤◌, ℕ, Bool, false, IfOk};
ghost use Rattle.oss_machine.specs.Asks.{meant_ask, meant_order};
ghost use Rattle.oss_meaning.specs.Clauses.{waited_for};
ghost use Rattle.oss_meaning.specs.Sections.{declared_on};
ghost use Rattle.oss_machine.specs.Frames.{CodeScript};
ghost use Rattle.oss_model.specs.Bodies.{Frame as Meant, Create, Print, Release, WaitOn, act_of_ask, judged_act};
ghost use Rattle.oss_model.specs.Context.{right_of};
ghost use Rattle.oss_model.specs.Order.{written};
ghost use Rattle.oss_model.specs.Rights.{NoRight};
ghost use Rattle.oss_body.specs.Drafts.{Alike, IsDraft, draft_fault, drafted, needs_memory};

use crate::act::{Act, Creation};
use crate::copies::{copy_items, copy_order};
use crate::draft::Draft;
use crate::place::Place;
use oss_code::TaskOrder;
use oss_judge::{Context, Given};
use oss_machine::Ask;
use oss_model::FaultKind;
use oss_syntax::{Access, Boxed, Bytes, List, Range};
use std::alloc::{AllocError, Global};

impl Place {
    /// The draft of an ask of the task, which no other ask passes, for the time when the task has created so
    /// many. `own` has the rights with which the body's own task started, and `included` says that another task
    /// acts. Until then the task may touch cells, lend them, wait and release.
    pub(crate) fn draft(
        &self,
        alloc: Global,
        own: &Context,
        included: bool,
        ask: &Ask,
        created: u32,
    ) -> Result<Draft, AllocError>
        requires few { created ≤ 65535 }
        ensures means { IfOk result (λ draft. (f : Meant CodeScript) (line : ℕ) →
            Alike self.now.context f.context → self.now.path ≡ written f.path → f.context.created ≡ created →
            act_of_ask (right_of own.now) included f (meant_ask ask.now) line ≡ judged_act f line
            (draft_fault f.context draft) (drafted draft)) }
        ensures right { IfOk result (λ draft. IsDraft self.now.context draft) }
    {
        match ask {
            Ask::Create(order) => self.creation(alloc, order.get()),
            Ask::WaitOn(ranges) => wait_on(alloc, ranges),
            Ask::Release(clauses) => release(alloc, clauses, included),
            Ask::Print(text) => self.print(alloc, text, created),
            _ => Ok(draft_at_once(own, ask)),
        }
    }

    /// A creation, with the context of the new task. A task that stands too deep makes none.
    fn creation(&self, alloc: Global, order: &TaskOrder) -> Result<Draft, AllocError>
        ensures means { IfOk result (λ draft. (f : Meant CodeScript) (line : ℕ) →
            Alike self.now.context f.context → act_of_ask (λ c. NoRight) false f
            (Create (meant_order order.now)) line ≡ judged_act f line (draft_fault f.context draft) (drafted draft)) }
        ensures right { IfOk result (λ draft. IsDraft self.now.context draft) }
    {
        if self.context.depth() >= 64 {
            return Ok(Draft::Faulty(FaultKind::TooDeep));
        }
        let last = self.context.is_final() || order.last;
        let given = Given::of(alloc, &order.accesses, last)?;
        let context = self.context.start(&given, &order.accesses, order.last)?;
        let order = copy_order(alloc, order)?;
        let creation = Boxed::new(alloc, Creation { order, context })?;
        Ok(Draft::Creation {
            given,
            creation,
            included: self.context.is_final(),
        })
    }

    /// A print, with its key.
    fn print(&self, alloc: Global, text: &Bytes, created: u32) -> Result<Draft, AllocError>
        requires few { created ≤ 65535 }
        ensures means { IfOk result (λ draft. (f : Meant CodeScript) (line : ℕ) →
            self.now.path ≡ written f.path → f.context.created ≡ created →
            act_of_ask (λ c. NoRight) false f (Print text.now) line ≡ judged_act f line
            (draft_fault f.context draft) (drafted draft)) }
        ensures right { IfOk result (λ draft. IsDraft self.now.context draft) }
    {
        let text = Bytes::from_slice(alloc, text.as_slice())?;
        let key = self.key_behind(created)?;
        Ok(Draft::Plain(Act::Print { key, text }))
    }
}

/// The draft of an ask for which no memory is needed.
fn draft_at_once(own: &Context, ask: &Ask) -> Draft
    requires small { needs_memory ask.now ≡ false }
    ensures means { (included : Bool) (f : Meant CodeScript) (line : ℕ) →
        act_of_ask (right_of own.now) included f (meant_ask ask.now) line ≡ judged_act f line
        (draft_fault f.context result) (drafted result) }
    ensures right { (x : _) → IsDraft x result }
{
    match ask {
        Ask::Begin => Draft::Begun,
        Ask::Tick => Draft::Plain(Act::Tick),
        Ask::Read(cell) => Draft::Plain(Act::Load(*cell)),
        Ask::Write(cell, value) => Draft::Plain(Act::Store(*cell, *value)),
        Ask::Fold(cell, op, value) => Draft::Plain(Act::Fold {
            cell: *cell,
            op: *op,
            value: *value,
            slot: own.fold_op(*cell).is_some(),
        }),
        Ask::Await => Draft::Faulty(FaultKind::TooManyTasks),
        Ask::Wait => Draft::Plain(Act::Wait),
        Ask::End => Draft::Plain(Act::End),
        Ask::Fault(kind) => Draft::Faulty(*kind),
        _ => unreachable!(),
    }
}

/// A wait for cells.
fn wait_on(alloc: Global, ranges: &List<Range>) -> Result<Draft, AllocError>
    ensures means { IfOk result (λ draft. (f : Meant CodeScript) (line : ℕ) →
        act_of_ask (λ c. NoRight) false f (WaitOn (declared_on waited_for ranges.now)) line ≡ judged_act f line
        (draft_fault f.context draft) (drafted draft)) }
    ensures right { IfOk result (λ draft. (x : _) → IsDraft x draft) }
{
    let ranges = copy_items(alloc, ranges.as_slice())?;
    Ok(Draft::Plain(Act::WaitOn(ranges)))
}

/// A release, of an included task or not.
fn release(alloc: Global, clauses: &List<Access>, included: bool) -> Result<Draft, AllocError>
    ensures means { IfOk result (λ draft. (f : Meant CodeScript) (line : ℕ) →
        act_of_ask (λ c. NoRight) included f (Release clauses.now) line ≡ judged_act f line
        (draft_fault f.context draft) (drafted draft)) }
    ensures right { IfOk result (λ draft. (x : _) → IsDraft x draft) }
{
    let given = Given::of(alloc, clauses, false)?;
    let clauses = copy_items(alloc, clauses.as_slice())?;
    Ok(Draft::Release {
        given,
        clauses,
        included,
    })
}
