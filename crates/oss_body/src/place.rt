//! A task as the judge knows it, and what its acts change there.
ghost use Rattle.std.specs.Prelude.{◌≡◌, ◌+◌, ◌<◌, ◌≤◌, ◌++◌, ◌∷◌, [], true, suc, length, map, None, IfOk, OnErr, OnOk};
ghost use Rattle.oss_judge.specs.Parts.{reading};
ghost use Rattle.oss_model.specs.Bodies.{lent_when, one_more_created};
ghost use Rattle.oss_model.specs.Context.{Context as Meaning, create_fault, made, release, right_of, tick_fault, waited, waited_on, wrote};
ghost use Rattle.oss_body.specs.Acts.{is_none, passed};
ghost use Rattle.oss_body.specs.Behind.{IsLight, behind_creation, context_behind, created_by};
ghost use Rattle.oss_body.specs.Places.{key_at};

use crate::act::{Act, Creation};
use oss_judge::Context;
use oss_model::Point;
use oss_syntax::{Access, List, Range};
use std::alloc::AllocError;
use std::marker::Model;

/// A task that runs in a body: its context, and its point. The point has one number more than there are tasks
/// above it, which are 64 at most.
pub(crate) struct Place {
    pub(crate) context: Context,
    pub(crate) path: Point,
}

// By hand, so that who lets one go calls this, and does not take it apart at each exit.
impl Drop for Place {
    fn drop(self) {
        let Place { context, path } = self;
        drop(context);
        drop(path);
    }
}

impl Model for Place {
    ghost use Rattle.std.specs.Prelude.{◌≡◌, ◌≤◌, suc, length};
    ghost use Rattle.oss_body.specs.Places.{Placed};

    ghost Value = { Placed };

    ghost view = { λ p. record { context = p.context; path = p.path } };

    ghost invariant = { λ p. (length p.path ≡ suc p.context.depth) × (p.context.depth ≤ 64) };
}

impl Place {
    /// A task with this context at this point.
    pub(crate) fn new(context: Context, path: Point) -> Place
        requires numbers { length path ≡ suc context.depth }
        requires depth { context.depth ≤ 64 }
        ensures { result ≡ record { context = context; path = path } }
    {
        Place { context, path }
    }

    /// The context.
    pub(crate) fn context(&self) -> &Context
        ensures { result.now ≡ self.now.context }
    {
        &self.context
    }

    /// The point.
    pub(crate) fn path(&self) -> &Point
        ensures { result.now ≡ self.now.path }
    {
        &self.path
    }

    /// The key at which the task acts once it has created so many, which is also the point of the next task
    /// that it creates then.
    pub(crate) fn key_behind(&self, created: u32) -> Result<Point, AllocError>
        requires { created ≤ 65535 }
        ensures key { IfOk result (λ key. key ≡ self.now.path ++ created ∷ []) }
        ensures numbers { IfOk result (λ key. length key ≡ suc (suc self.now.context.depth)) }
    {
        self.path.child(created as u16)
    }

    /// The key at which the task acts now.
    pub(crate) fn key(&self) -> Result<Point, AllocError>
        ensures key { IfOk result (λ key. key ≡ key_at self.now) }
        ensures numbers { IfOk result (λ key. length key ≡ suc (suc self.now.context.depth)) }
    {
        self.key_behind(self.context.created_count())
    }

    /// How many tasks the task has created once this act has happened.
    pub(crate) fn created_behind(&self, act: &Act) -> u32
        requires { passed act.now self.now.context ≡ true }
        ensures few { result ≤ 65535 }
        ensures created { result ≡ created_by act.now self.now.context.created }
    {
        let created = self.context.created_count();
        match act {
            Act::Create { .. } => created + 1,
            Act::Tick => created,
            Act::Load(_) => created,
            Act::Store(_, _) => created,
            Act::Fold { .. } => created,
            Act::Await => created,
            Act::Wait => created,
            Act::WaitOn(_) => created,
            Act::Release { .. } => created,
            Act::Print { .. } => created,
            Act::End => created,
            Act::Fault { .. } => created,
        }
    }

    /// Whether the task may begin a creation once it has created so many.
    pub(crate) fn may_begin(&self, created: u32) -> bool
        ensures { (x : Meaning) → x.depth ≡ self.now.context.depth → x.created ≡ created →
            result ≡ is_none (create_fault x) }
    {
        self.context.depth() < 64 && created < 65_535
    }

    /// Notes one more tick, which is no fault. It takes no memory.
    pub(crate) fn tick(&mut self)
        requires { tick_fault self.old.context ≡ None }
        ensures { self.new ≡ record self.old {
          context = record self.old.context
              { ticks = self.old.context.ticks + 1 };
        } }
    {
        match self.context.tick() {
            Ok(()) => {}
            Err(_) => unreachable!(),
        }
    }

    /// Notes that a cell is written.
    pub(crate) fn wrote(&mut self, cell: u32) -> Result<(), AllocError>
        ensures ok { OnOk result (self.new ≡ record self.old { context = wrote cell self.old.context }) }
        ensures err { OnErr result (self.new ≡ self.old) }
    {
        self.context.wrote(cell)
    }

    /// Notes a creation that is no fault: what the task with this context may write counts as written, and
    /// where `lends` is true what it has is lent to it.
    pub(crate) fn give(&mut self, child: &Context, lends: bool) -> Result<(), AllocError>
        requires { create_fault self.old.context ≡ None }
        ensures ok { OnOk result (self.new ≡ record self.old {
          context = made (right_of child.now)
              (lent_when lends (right_of child.now) (one_more_created self.old.context));
        }) }
        ensures err { OnErr result (self.new ≡ self.old) }
    {
        if lends {
            self.context.noted_and_lent(child)
        } else {
            self.context.noted(child)
        }
    }

    /// Notes a release.
    pub(crate) fn release(&mut self, clauses: &List<Access>) -> Result<(), AllocError>
        ensures ok { OnOk result (self.new ≡ record self.old { context = release clauses.now self.old.context }) }
        ensures err { OnErr result (self.new ≡ self.old) }
    {
        self.context.released(clauses)
    }

    /// Takes back all that is lent. It takes no memory.
    pub(crate) fn wait(&mut self)
        ensures { self.new ≡ record self.old { context = waited self.old.context } }
    {
        self.context.waited();
    }

    /// Takes back what is lent of the cells of these ranges.
    pub(crate) fn wait_on(&mut self, named: &List<Range>) -> Result<(), AllocError>
        ensures ok { OnOk result (self.new ≡ record self.old {
          context = waited_on (map reading named.now)
              self.old.context;
        }) }
        ensures err { OnErr result (self.new ≡ self.old) }
    {
        self.context.took_back(named)
    }

    /// Whether an act is a tick, or a touch that is no fold and changes nothing here.
    #[inline(always)]
    pub(crate) fn is_light(&self, act: &Act) -> bool
        ensures { result ≡ true → IsLight act.now self.now.context }
    {
        match act {
            Act::Tick => true,
            Act::Load(_) => true,
            Act::Store(cell, _) => self.context.is_written(*cell),
            _ => false,
        }
    }

    /// Such an act has happened. It takes no memory.
    #[inline(always)]
    pub(crate) fn pass(&mut self, act: &Act)
        requires light { IsLight act.now self.old.context }
        requires passed { passed act.now self.old.context ≡ true }
        ensures { self.new ≡ record self.old { context = context_behind act.now self.old.context } }
    {
        match act {
            Act::Tick => self.tick(),
            Act::Load(_) => {}
            Act::Store(_, _) => {}
            _ => unreachable!(),
        }
    }

    /// An act has happened that leaves the task the one that acts. Where memory is wanting the place stays.
    pub(crate) fn apply(&mut self, act: &Act) -> Result<(), AllocError>
        requires { passed act.now self.old.context ≡ true }
        ensures ok { OnOk result (self.new ≡ record self.old { context = context_behind act.now self.old.context }) }
        ensures err { OnErr result (self.new ≡ self.old) }
    {
        match act {
            Act::Tick => {
                self.tick();
                Ok(())
            }
            Act::Load(_) => Ok(()),
            Act::Store(cell, _) => self.wrote(*cell),
            Act::Fold { cell, .. } => self.wrote(*cell),
            Act::Create { creation, .. } => self.create(creation.get()),
            Act::Await => Ok(()),
            Act::Wait => {
                self.wait();
                Ok(())
            }
            Act::WaitOn(ranges) => self.wait_on(ranges),
            Act::Release { clauses, .. } => self.release(clauses),
            Act::Print { .. } => Ok(()),
            Act::End => Ok(()),
            Act::Fault { .. } => Ok(()),
        }
    }

    /// The creation of a task has happened that is not included.
    fn create(&mut self, creation: &Creation) -> Result<(), AllocError>
        requires { create_fault self.old.context ≡ None }
        ensures ok { OnOk result (self.new ≡ record self.old {
          context = behind_creation creation.now
              self.old.context;
        }) }
        ensures err { OnErr result (self.new ≡ self.old) }
    {
        self.give(&creation.context, creation.order.when)
    }
}
