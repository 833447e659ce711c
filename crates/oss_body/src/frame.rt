//! One task of a body: its own, or one that is included.
ghost use Rattle.std.specs.Prelude.{◌≡◌, ◌<◌, ℕ, Bool, suc, true, false, IfOk, OnErr, OnOk, None, Some};
ghost use Rattle.oss_model.specs.Rights.{Right};
ghost use Rattle.oss_machine.specs.Asks.{meant_ask, meant_order, script_of};
ghost use Rattle.oss_machine.specs.Failures.{failure_of};
ghost use Rattle.oss_machine.specs.Frames.{CodeScript};
ghost use Rattle.oss_machine.specs.Hastes.{is_quick_ask};
ghost use Rattle.oss_machine.specs.Machines.{asks, machine_after, machine_start};
ghost use Rattle.oss_machine.specs.Rushes.{Rushes};
ghost use Rattle.oss_model.specs.Bodies.{Frame as Meant, act_of_ask, child_frame, frame_act, frame_after, including_frame, one_more_created, settled_frame};
ghost use Rattle.oss_model.specs.Context.{child_context, create_fault, made, right_of};
ghost use Rattle.oss_body.specs.Acts.{HasContext, act_seen, answer_to, passed};
ghost use Rattle.oss_body.specs.Behind.{IsLight};
ghost use Rattle.oss_body.specs.Kept.{kept};
ghost use Rattle.oss_body.specs.Places.{IsKey, key_at, place_of};
ghost use Rattle.oss_body.specs.Touches.{IsMade};

use crate::act::{Act, Creation};
use crate::looking::{Ahead, awaits_behind, fill, reach, reach_behind};
use crate::place::Place;
use oss_code::{Code, TaskOrder};
use oss_judge::Context;
use oss_machine::{Ask, Failure, Machine};
use oss_model::Point;
use std::alloc::{AllocError, Global};
use std::marker::Model;

/// One task of a body. Between two calls its machine has looked at nothing that lies ahead.
pub(crate) struct Frame {
    machine: Machine,
    place: Place,
    /// A wait for the newest child stands before the next ask.
    awaits: bool,
}

// By hand, so that who lets one go calls this, and does not take it apart at each exit.
impl Drop for Frame {
    fn drop(self) {
        let Frame {
            machine,
            place,
            awaits: _,
        } = self;
        drop(machine);
        drop(place);
    }
}

impl Model for Frame {
    ghost use Rattle.std.specs.Prelude.{◌≡◌};
    ghost use Rattle.oss_body.specs.Places.{Framed};

    ghost Value = { Framed };

    ghost view = { λ f. record { machine = f.machine.stands; place = f.place; awaits = f.awaits } };

    ghost invariant = { λ f. f.machine.ahead ≡ f.machine.stands };
}

impl Frame {
    /// A task that has done nothing.
    pub(crate) fn new(
        alloc: Global,
        code: &Code,
        order: &TaskOrder,
        place: Place,
    ) -> Result<Frame, AllocError>
        ensures { IfOk result (λ frame. frame ≡ record {
          machine = machine_start code.now (script_of order.now);
          place = place;
          awaits = false;
        }) }
    {
        let machine = Machine::new(alloc, code, order)?;
        Ok(Frame {
            machine,
            place,
            awaits: false,
        })
    }

    /// Where the task stands.
    pub(crate) fn place(&self) -> &Place
        ensures { result.now ≡ self.now.place }
    {
        &self.place
    }

    /// What the task asks next.
    pub(crate) fn ask(&self) -> &Ask
        ensures { meant_ask result.now ≡ self.now.machine.asked.ask }
    {
        self.machine.ask()
    }

    /// The line to which a fault of what it asks belongs, counted from 1; 0 if there is none.
    pub(crate) fn line(&self) -> u32
        ensures { result ≡ self.now.machine.asked.line }
    {
        self.machine.line()
    }

    /// What failed, if the task stands before a failure of the program's own meaning of which this is told.
    pub(crate) fn failure(&self, code: &Code) -> Option<Failure>
        ensures { result ≡ failure_of code.now self.now.machine }
    {
        self.machine.failure(code)
    }

    /// Passes what is no act, and tells the act that stands next, or the fault. `own` has the rights with which
    /// the body's own task started, and `included` says that this is another task. A key that is kept is that
    /// of the task. Where memory is wanting the task stays.
    pub(crate) fn next(
        &mut self,
        alloc: Global,
        code: &Code,
        own: &Context,
        included: bool,
        key: &mut Option<Point>,
    ) -> Result<Act, AllocError>
        requires key { IsKey key.old self.old.place }
        ensures frame { OnOk result ((f : Meant CodeScript) → self.old ≡ kept code.now f →
            self.new ≡ kept code.now (settled_frame (asks code.now) f)) }
        ensures act { IfOk result (λ act. (f : Meant CodeScript) → self.old ≡ kept code.now f →
            act_seen act ≡ frame_act (asks code.now) (right_of own.now) included
            (settled_frame (asks code.now) f) (settled_frame (asks code.now) f).awaits) }
        ensures passed { IfOk result (λ act. passed act self.new.place.context ≡ true) }
        ensures child { IfOk result (λ act. HasContext self.new.place.context act) }
        ensures key { OnOk result (IsKey key.new self.new.place) }
        ensures err { OnErr result (self.new ≡ self.old) }
    {
        let created = self.place.context().created_count();
        let ahead = Ahead {
            created,
            awaits: self.awaits,
        };
        fill(key, &self.place, created)?;
        match reach(
            alloc,
            code,
            &mut self.machine,
            &self.place,
            own,
            included,
            ahead,
        ) {
            Ok(draft) => {
                self.machine.go();
                Ok(self.place.judged(draft, self.machine.line(), key))
            }
            Err(full) => {
                self.machine.stay();
                Err(full)
            }
        }
    }

    /// The act has happened, and a load found this value, where nothing wants memory: the act is a tick, a load, or
    /// a store that marks no cell anew, and the next is a tick, a load, a store, a fault or the end. Then the task
    /// goes on, and this tells the act that stands next, as `next` does. Otherwise nothing changes.
    #[inline(always)]
    pub(crate) fn follow_at_once(
        &mut self,
        code: &Code,
        act: &Act,
        loaded: u64,
        key: &mut Option<Point>,
    ) -> Option<Act>
        requires passed { passed act.now self.old.place.context ≡ true }
        requires key { IsKey key.old self.old.place }
        ensures frame { (next : Act) → result ≡ Some next → (f : Meant CodeScript) →
            self.old ≡ kept code.now f → HasContext f.context act.now →
            self.new ≡ kept code.now (settled_frame (asks code.now)
            (frame_after (act_seen act.now) (answer_to (act_seen act.now) loaded) f)) }
        ensures act { (next : Act) → result ≡ Some next →
            (slots : ℕ → Right) (included : Bool) (f : Meant CodeScript) → self.old ≡ kept code.now f →
            HasContext f.context act.now → act_seen next ≡ frame_act (asks code.now) slots included
            (settled_frame (asks code.now) (frame_after (act_seen act.now) (answer_to (act_seen act.now) loaded)
            f)) (settled_frame (asks code.now) (frame_after (act_seen act.now)
            (answer_to (act_seen act.now) loaded) f)).awaits }
        ensures passed { (next : Act) → result ≡ Some next → passed next self.new.place.context ≡ true }
        ensures child { (next : Act) → result ≡ Some next → HasContext self.new.place.context next }
        ensures key { (next : Act) → result ≡ Some next → IsKey key.new self.new.place }
        ensures light { (next : Act) → result ≡ Some next → IsLight act.now self.old.place.context }
        ensures stays { result ≡ None → self.new ≡ self.old }
        ensures same { result ≡ None → key.new ≡ key.old }
    {
        if self.awaits || key.is_none() || !self.place.is_light(act) {
            return None;
        }
        if !self.machine.answer_at_once(code, found_by(act, loaded)) {
            return None;
        }
        self.place.pass(act);
        Some(
            self.place
                .judged_at_once(self.machine.ask(), self.machine.line(), key),
        )
    }

    /// Goes on by ticks, loads and stores, at most so many, each of which happens to the cells of memory as soon as the
    /// task asks for it, where nothing wants memory. This tells how many have happened. A store that marks its cell
    /// anew is not made.
    #[inline(always)]
    pub(crate) fn rush(&mut self, code: &Code, cells: &mut Vec<u64>, most: u64) -> u64
        ensures rushes { Rushes IsMade code.now self.old.machine self.old.place cells.old result
            self.new.machine self.new.place cells.new }
        ensures awaits { self.new.awaits ≡ self.old.awaits }
        ensures calm { 0 < result → self.old.awaits ≡ false }
    {
        if self.awaits {
            return 0;
        }
        self.machine.rush(code, &mut self.place, cells, most)
    }

    /// The act that stands next, or the fault, if the task asks for a tick, a load or a store, or has ended or failed.
    /// A fault takes the key, which is that at which the task acts.
    #[inline(always)]
    pub(crate) fn quick_act(&self, key: &mut Option<Point>) -> Act
        requires quick { is_quick_ask self.now.machine.asked.ask ≡ true }
        requires key { key.old ≡ Some (key_at self.now.place) }
        ensures act { (slots : ℕ → Right) (included : Bool) (f : Meant CodeScript) → self.now.place ≡ place_of f →
            act_seen result ≡ act_of_ask slots included f self.now.machine.asked.ask self.now.machine.asked.line }
        ensures passed { passed result self.now.place.context ≡ true }
        ensures child { HasContext self.now.place.context result }
        ensures key { IsKey key.new self.now.place }
    {
        self.place
            .judged_at_once(self.machine.ask(), self.machine.line(), key)
    }

    /// The act has happened, which leaves the task the one that acts, and a load found this value: the task
    /// goes on, and this tells the act that stands next, as `next` does. Where memory is wanting the task
    /// stays.
    #[tactic(auto, using(crate::proofs::BehindLemmas::behind_created, crate::proofs::BehindLemmas::draft_behind))]
    pub(crate) fn follow(
        &mut self,
        alloc: Global,
        code: &Code,
        own: &Context,
        included: bool,
        act: &Act,
        loaded: u64,
        key: &mut Option<Point>,
    ) -> Result<Act, AllocError>
        requires passed { passed act.now self.old.place.context ≡ true }
        requires key { IsKey key.old self.old.place }
        ensures frame { OnOk result ((f : Meant CodeScript) → self.old ≡ kept code.now f →
            HasContext f.context act.now → self.new ≡
            kept code.now (settled_frame (asks code.now)
            (frame_after (act_seen act.now) (answer_to (act_seen act.now) loaded) f))) }
        ensures act { IfOk result (λ next. (f : Meant CodeScript) → self.old ≡ kept code.now f →
            HasContext f.context act.now → act_seen next ≡ frame_act (asks code.now) (right_of own.now) included
            (settled_frame (asks code.now) (frame_after (act_seen act.now) (answer_to (act_seen act.now) loaded)
            f)) (settled_frame (asks code.now) (frame_after (act_seen act.now)
            (answer_to (act_seen act.now) loaded) f)).awaits) }
        ensures passed { IfOk result (λ next. passed next self.new.place.context ≡ true) }
        ensures child { IfOk result (λ next. HasContext self.new.place.context next) }
        ensures key { OnOk result (IsKey key.new self.new.place) }
        ensures err { OnErr result (self.new ≡ self.old) }
    {
        let created = self.place.created_behind(act);
        if created != self.place.context().created_count() {
            *key = None;
        }
        fill(key, &self.place, created)?;
        let ahead = Ahead {
            created,
            awaits: awaits_behind(act, self.awaits),
        };
        match reach_behind(
            alloc,
            code,
            &mut self.machine,
            &mut self.place,
            own,
            included,
            act,
            loaded,
            ahead,
        ) {
            Ok(draft) => {
                self.machine.go();
                self.awaits = ahead.awaits;
                Ok(self.place.judged(draft, self.machine.line(), key))
            }
            Err(full) => {
                self.machine.stay();
                Err(full)
            }
        }
    }

    /// The creation of a task has happened that is included: the task goes on to what it asks behind it. Where
    /// memory is wanting it stays.
    pub(crate) fn include(&mut self, code: &Code, creation: &Creation) -> Result<(), AllocError>
        requires { create_fault self.old.place.context ≡ None }
        ensures ok { OnOk result ((f : Meant CodeScript) → self.old ≡ kept code.now f →
            creation.now.context ≡ child_context f.context creation.now.order.accesses creation.now.order.last →
            self.new ≡ kept code.now (including_frame (meant_order creation.now.order) f)) }
        ensures err { OnErr result (self.new ≡ self.old) }
    {
        match look_at_included(&mut self.machine, &mut self.place, code, creation) {
            Ok(()) => {
                self.machine.go();
                Ok(())
            }
            Err(full) => {
                self.machine.stay();
                Err(full)
            }
        }
    }

    /// The task that a creation makes, at its start.
    pub(crate) fn child(
        &self,
        alloc: Global,
        code: &Code,
        creation: &Creation,
    ) -> Result<Frame, AllocError>
        requires passed { create_fault self.now.place.context ≡ None }
        requires depth { creation.now.context.depth ≡ suc self.now.place.context.depth }
        ensures { IfOk result (λ child. (f : Meant CodeScript) → self.now ≡ kept code.now f →
            creation.now.context ≡ child_context f.context creation.now.order.accesses creation.now.order.last →
            child ≡ kept code.now (child_frame f (meant_order creation.now.order))) }
    {
        let path = self.place.key()?;
        let context = creation.context.copy()?;
        Frame::new(alloc, code, &creation.order, Place::new(context, path))
    }
}

/// The answer to an act where a load finds this value.
#[inline(always)]
fn found_by(act: &Act, loaded: u64) -> u64
    ensures { result ≡ answer_to (act_seen act.now) loaded }
{
    match act {
        Act::Load(_) => loaded,
        _ => 0,
    }
}

/// Looks at how the machine goes on behind the creation of an included task, which then happens at the place.
/// It lends nothing.
fn look_at_included(
    machine: &mut Machine,
    place: &mut Place,
    code: &Code,
    creation: &Creation,
) -> Result<(), AllocError>
    requires { create_fault place.old.context ≡ None }
    ensures stays { machine.new.stands ≡ machine.old.stands }
    ensures ahead { OnOk result (machine.new.ahead ≡ machine_after code.now 0 machine.old.ahead) }
    ensures ok { OnOk result (place.new ≡ record place.old {
      context = made (right_of creation.now.context)
          (one_more_created place.old.context);
    }) }
    ensures err { OnErr result (place.new ≡ place.old) }
{
    machine.look(code, 0)?;
    place.give(&creation.context, false)
}
