//! The tasks of a body.
ghost use Rattle.std.specs.Prelude.{◌≡◌, ◌<◌, true, false, suc, length, None, Some, Ok};
ghost use Rattle.oss_model.specs.Context.{Context as Meaning, create_fault};
ghost use Rattle.oss_body.specs.Acts.{act_seen, passed};
ghost use Rattle.oss_body.specs.Behind.{IsLight};
ghost use Rattle.oss_body.specs.Following.{BehindAct, BehindAnswer, BehindCreation, BehindEnd, IsFollowing};
ghost use Rattle.oss_body.specs.Places.{IsKey};
ghost use Rattle.oss_body.specs.Stacks.{includes_in, stays_on};
ghost use Rattle.oss_body.specs.declared.act.Act.TheVariants as acts;

use crate::act::{Act, Creation};
use crate::below::Below;
use crate::frame::Frame;
use crate::place::Place;
use oss_code::Code;
use oss_judge::Context;
use oss_model::Point;
use std::alloc::{AllocError, Global};
use std::mem;

/// The tasks of a body: the one that acts, and below it those that include it, the body's own first.
pub(crate) struct Tasks {
    pub(crate) top: Frame,
    pub(crate) below: Below,
    /// The body's own task has ended.
    pub(crate) ended: bool,
}

// By hand, so that who lets one go calls this, and does not take it apart at each exit.
impl Drop for Tasks {
    fn drop(self) {
        let Tasks {
            top,
            below,
            ended: _,
        } = self;
        drop(top);
        drop(below);
    }
}

/// Which task acts behind an act.
#[derive(Clone, Copy)]
enum Way {
    /// The one that did.
    On,
    /// The one that has included it, if there is one.
    Back,
    /// The one that it has included.
    Into,
}

/// Which task acts behind an act of a task that is alone in its body or not.
fn way_behind(act: &Act, alone: bool) -> Way
    ensures on { result ≡ Way.On → stays_on (act_seen act.now) alone ≡ true }
    ensures back { result ≡ Way.Back → act.now ≡ acts.End }
    ensures goes_into { result ≡ Way.Into → includes_in act.now alone ≡ true }
{
    match act {
        Act::Create { included, .. } => {
            if *included || !alone {
                Way::Into
            } else {
                Way::On
            }
        }
        Act::End => Way::Back,
        _ => Way::On,
    }
}

impl Tasks {
    ghost use Rattle.oss_body.specs.Stacks.{is_nil, own_place};

    /// The act has happened, and a load found this value: the tasks go on, and this tells the act that stands
    /// next, unless the body's own task has ended. `own` has the rights with which that one started. A key that
    /// is kept is that of the task that acts. Where memory is wanting the tasks stay.
    pub(crate) fn follow(
        &mut self,
        alloc: Global,
        code: &Code,
        own: &Context,
        act: &Act,
        loaded: u64,
        key: &mut Option<Point>,
    ) -> Result<Act, AllocError>
        requires running { self.old.ended ≡ false }
        requires passed { passed act.now self.old.top.place.context ≡ true }
        requires key { IsKey key.old self.old.top.place }
        ensures following { IsFollowing (BehindAct act.now loaded) code.now own.now self.old self.new key.new result }
    {
        match way_behind(act, self.below.len() == 0) {
            Way::On => self.go_on(alloc, code, own, act, loaded, key),
            Way::Back => self.end(alloc, code, own, key),
            Way::Into => self.follow_into(alloc, code, own, act, key),
        }
    }

    /// The same where nothing wants memory: the act is a tick, a load, or a store that marks no cell anew, and the
    /// next is a tick, a load, a store, a fault or the end. Otherwise nothing changes.
    #[inline(always)]
    pub(crate) fn follow_at_once(
        &mut self,
        code: &Code,
        act: &Act,
        loaded: u64,
        key: &mut Option<Point>,
    ) -> Option<Act>
        requires running { self.old.ended ≡ false }
        requires passed { passed act.now self.old.top.place.context ≡ true }
        requires key { IsKey key.old self.old.top.place }
        ensures following { (next : Act) → result ≡ Some next → (own : Meaning) →
            IsFollowing (BehindAct act.now loaded) code.now own self.old self.new key.new (Ok next) }
        ensures light { (next : Act) → result ≡ Some next → IsLight act.now self.old.top.place.context }
        ensures stays { result ≡ None → self.new ≡ self.old }
        ensures same { result ≡ None → key.new ≡ key.old }
    {
        self.top.follow_at_once(code, act, loaded, key)
    }

    /// The creation of an included task has happened: that one acts next.
    fn follow_into(
        &mut self,
        alloc: Global,
        code: &Code,
        own: &Context,
        act: &Act,
        key: &mut Option<Point>,
    ) -> Result<Act, AllocError>
        requires running { self.old.ended ≡ false }
        requires goes_into { includes_in act.now (is_nil self.old.below) ≡ true }
        requires passed { passed act.now self.old.top.place.context ≡ true }
        ensures following { IsFollowing (BehindAnswer act.now 0) code.now own.now self.old self.new key.new result }
    {
        match act {
            Act::Create { creation, .. } => self.include(alloc, code, own, creation.get(), key),
            _ => unreachable!(),
        }
    }

    /// An act has happened that leaves the task that acts the one that does.
    #[tactic(auto, using(crate::proofs::FollowLemmas::followed_on))]
    fn go_on(
        &mut self,
        alloc: Global,
        code: &Code,
        own: &Context,
        act: &Act,
        loaded: u64,
        key: &mut Option<Point>,
    ) -> Result<Act, AllocError>
        requires running { self.old.ended ≡ false }
        requires stays { stays_on (act_seen act.now) (is_nil self.old.below) ≡ true }
        requires passed { passed act.now self.old.top.place.context ≡ true }
        requires key { IsKey key.old self.old.top.place }
        ensures following { IsFollowing (BehindAct act.now loaded) code.now own.now self.old self.new key.new result }
    {
        let included = 0 < self.below.len();
        self.top
            .follow(alloc, code, own, included, act, loaded, key)
    }

    /// The creation of an included task has happened, which acts next.
    fn include(
        &mut self,
        alloc: Global,
        code: &Code,
        own: &Context,
        creation: &Creation,
        key: &mut Option<Point>,
    ) -> Result<Act, AllocError>
        requires running { self.old.ended ≡ false }
        requires passed { create_fault self.old.top.place.context ≡ None }
        requires depth { creation.now.context.depth ≡ suc self.old.top.place.context.depth }
        ensures following { IsFollowing (BehindCreation creation.now) code.now own.now self.old self.new
            key.new result }
    {
        let mut child = self.top.child(alloc, code, creation)?;
        drop(mem::replace(key, None));
        let act = child.next(alloc, code, own, true, key)?;
        match self.below.push(child) {
            Ok(()) => match self.top.include(code, creation) {
                Ok(()) => {
                    self.below.exchange(&mut self.top);
                    Ok(act)
                }
                Err(full) => {
                    drop(act);
                    let child = self.below.pop();
                    drop(child);
                    Err(full)
                }
            },
            Err(full) => {
                drop(act);
                Err(full)
            }
        }
    }

    /// The end of the task that acts has happened. The one that has included it acts next, if there is one.
    fn end(
        &mut self,
        alloc: Global,
        code: &Code,
        own: &Context,
        key: &mut Option<Point>,
    ) -> Result<Act, AllocError>
        requires running { self.old.ended ≡ false }
        requires key { IsKey key.old self.old.top.place }
        ensures following { IsFollowing BehindEnd code.now own.now self.old self.new key.new result }
    {
        if self.below.len() == 0 {
            self.ended = true;
            return Ok(Act::End);
        }
        self.go_back(alloc, code, own, key)
    }

    /// The end of an included task has happened.
    fn go_back(
        &mut self,
        alloc: Global,
        code: &Code,
        own: &Context,
        key: &mut Option<Point>,
    ) -> Result<Act, AllocError>
        requires running { self.old.ended ≡ false }
        requires some { 0 < length self.old.below }
        ensures following { IsFollowing BehindEnd code.now own.now self.old self.new key.new result }
    {
        let included = 1 < self.below.len();
        self.below.exchange(&mut self.top);
        *key = None;
        match self.top.next(alloc, code, own, included, key) {
            Ok(act) => {
                let _ended = self.below.pop();
                Ok(act)
            }
            Err(full) => {
                self.below.exchange(&mut self.top);
                Err(full)
            }
        }
    }

    /// Where the body's own task stands.
    pub(crate) fn own_place(&self) -> &Place
        ensures { result.now ≡ own_place self.now }
    {
        match self.below.own() {
            Some(own) => own.place(),
            None => self.top.place(),
        }
    }
}
