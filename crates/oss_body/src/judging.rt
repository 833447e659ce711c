//! What the judge makes of the draft of an act. It takes no memory.
ghost use Rattle.std.specs.Prelude.{◌≡◌, ◌||◌, ℕ, Bool, true, false, None, Some};
ghost use Rattle.std.specs.Result.{result_err};
ghost use Rattle.oss_judge.specs.Given.{IsGiven};
ghost use Rattle.oss_machine.specs.Asks.{meant_ask};
ghost use Rattle.oss_machine.specs.Frames.{CodeScript};
ghost use Rattle.oss_machine.specs.Hastes.{is_quick_ask};
ghost use Rattle.oss_model.specs.Bodies.{Fault, Frame as Meant, act_of_ask, judged_act, key_of};
ghost use Rattle.oss_model.specs.Rights.{Right};
ghost use Rattle.oss_model.specs.Context.{creation_fault};
ghost use Rattle.oss_body.specs.Acts.{HasContext, act_seen, passed};
ghost use Rattle.oss_body.specs.Drafts.{IsDraft, draft_fault, drafted, plain_fault};
ghost use Rattle.oss_body.specs.Places.{IsKey, key_at, place_of};

use crate::act::Act;
use crate::draft::Draft;
use crate::place::Place;
use oss_code::TaskOrder;
use oss_judge::Given;
use oss_machine::Ask;
use oss_model::{FaultKind, Point};
use std::mem;

impl Place {
    /// The act that a draft is, or the fault that the judge finds in its place. A fault takes the key, which is
    /// that at which the task acts.
    pub(crate) fn judged(&self, draft: Draft, line: u32, key: &mut Option<Point>) -> Act
        requires right { IsDraft self.now.context draft }
        requires key { key.old ≡ Some (key_at self.now) }
        ensures act { (f : Meant CodeScript) → self.now ≡ place_of f →
            act_seen result ≡ judged_act f line (draft_fault f.context draft) (drafted draft) }
        ensures passed { passed result self.now.context ≡ true }
        ensures child { HasContext self.now.context result }
        ensures key { IsKey key.new self.now }
    {
        match draft {
            Draft::Plain(act) => {
                let found = self.plain_fault(&act);
                self.unless_fault(found, act, line, key)
            },
            Draft::Creation {
                given,
                creation,
                included,
            } => {
                let found = self.creation_fault(&given, &creation.get().order);
                self.unless_fault(found, Act::Create { creation, included }, line, key)
            }
            Draft::Release {
                given,
                clauses,
                included,
            } => {
                let found = self.context.may_release_these(&given, &clauses);
                self.unless_fault(found, Act::Release { clauses, included }, line, key)
            }
            Draft::Begun => match self.context.may_create() {
                Ok(()) => self.fault(FaultKind::TooManyTasks, line, key),
                Err(kind) => self.fault(kind, line, key),
            },
            Draft::Faulty(kind) => self.fault(kind, line, key),
        }
    }

    /// The act, or the fault that the judge has found in its place.
    #[inline(always)]
    fn unless_fault(
        &self,
        found: Result<(), FaultKind>,
        act: Act,
        line: u32,
        key: &mut Option<Point>,
    ) -> Act
        requires passed { result_err found ≡ None → passed act self.now.context ≡ true }
        requires child { HasContext self.now.context act }
        requires key { key.old ≡ Some (key_at self.now) }
        ensures act { (f : Meant CodeScript) → self.now ≡ place_of f →
            act_seen result ≡ judged_act f line (result_err found) (act_seen act) }
        ensures passed { passed result self.now.context ≡ true }
        ensures child { HasContext self.now.context result }
        ensures key { IsKey key.new self.now }
    {
        match found {
            Ok(()) => act,
            Err(kind) => self.fault(kind, line, key),
        }
    }

    /// The act that a tick or a touch is, or the fault in its place. A fault takes the key, which is that at
    /// which the task acts.
    #[inline(always)]
    pub(crate) fn judged_at_once(&self, ask: &Ask, line: u32, key: &mut Option<Point>) -> Act
        requires quick { is_quick_ask (meant_ask ask.now) ≡ true }
        requires key { key.old ≡ Some (key_at self.now) }
        ensures act { (slots : ℕ → Right) (included : Bool) (f : Meant CodeScript) → self.now ≡ place_of f →
            act_seen result ≡ act_of_ask slots included f (meant_ask ask.now) line }
        ensures passed { passed result self.now.context ≡ true }
        ensures child { HasContext self.now.context result }
        ensures key { IsKey key.new self.now }
    {
        match ask {
            Ask::Tick => self.unless_fault(self.context.may_tick(), Act::Tick, line, key),
            Ask::Read(cell) => {
                self.unless_fault(self.context.may_read(*cell), Act::Load(*cell), line, key)
            }
            Ask::Write(cell, value) => {
                let found = self.context.may_write(*cell);
                self.unless_fault(found, Act::Store(*cell, *value), line, key)
            }
            Ask::Fault(kind) => self.fault(*kind, line, key),
            Ask::End => Act::End,
            _ => unreachable!(),
        }
    }

    /// A fault of the task. It takes the key.
    #[tactic(auto, using(crate::proofs::DraftLemmas::key_seen))]
    fn fault(&self, kind: FaultKind, line: u32, key: &mut Option<Point>) -> Act
        requires key { key.old ≡ Some (key_at self.now) }
        ensures act { (f : Meant CodeScript) → self.now ≡ place_of f → act_seen result ≡ Fault kind line (key_of f) }
        ensures passed { passed result self.now.context ≡ true }
        ensures child { HasContext self.now.context result }
        ensures key { key.new ≡ None }
    {
        match mem::replace(key, None) {
            Some(key) => Act::Fault { kind, line, key },
            None => unreachable!(),
        }
    }

    /// What the judge finds in the place of an act that is neither a creation nor a release.
    fn plain_fault(&self, act: &Act) -> Result<(), FaultKind>
        ensures { result_err result ≡ plain_fault self.now.context act.now }
    {
        match act {
            Act::Tick => self.context.may_tick(),
            Act::Load(cell) => self.context.may_read(*cell),
            Act::Store(cell, _) => self.context.may_write(*cell),
            Act::Fold { cell, op, .. } => self.context.may_fold(*cell, *op),
            Act::WaitOn(ranges) => self.context.may_wait_on(ranges),
            Act::Create { .. } => Ok(()),
            Act::Await => Ok(()),
            Act::Wait => Ok(()),
            Act::Release { .. } => Ok(()),
            Act::Print { .. } => Ok(()),
            Act::End => Ok(()),
            Act::Fault { .. } => Ok(()),
        }
    }

    /// The fault of a creation whose clauses give these rights. The number of tasks is tested before its clauses.
    fn creation_fault(&self, given: &Given, order: &TaskOrder) -> Result<(), FaultKind>
        requires { IsGiven (self.now.context.final || order.now.last) order.now.accesses given.now }
        ensures { result_err result ≡ creation_fault self.now.context order.now.accesses
            (self.now.context.final || order.now.last) }
    {
        match self.context.may_create() {
            Ok(()) => self.context.may_give_these(given, &order.accesses),
            Err(kind) => Err(kind),
        }
    }
}
