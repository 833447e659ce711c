//! A body.
ghost use Rattle.std.specs.Prelude.{◌≡◌, ◌∷◌, ◌≤◌, ◌<◌, [], List as Items, ℕ, Bool, suc, length, true, false, IfOk, OnErr, OnOk};
ghost use Rattle.oss_code.specs.declared.code.CodeParts.{CodeParts};
ghost use Rattle.oss_judge.specs.Joined.{IsRising, held_mark, held_right};
ghost use Rattle.oss_judge.specs.Seen.{right_seen};
ghost use Rattle.oss_machine.specs.Asks.{meant_ask, meant_order, script_of};
ghost use Rattle.oss_machine.specs.Failures.{failure_of};
ghost use Rattle.oss_machine.specs.Frames.{CodeScript};
ghost use Rattle.oss_machine.specs.Machines.{asks, machine_at};
ghost use Rattle.oss_model.specs.Bodies.{Order, Start, Created, ask_of, child_start, stack_from, stage_act, start_frame};
ghost use Rattle.oss_model.specs.Context.{mark_of, right_of};
ghost use Rattle.oss_model.specs.Moves.{slot_of};
ghost use Rattle.oss_model.specs.Order.{written};
ghost use Rattle.oss_model.specs.Rights.{Holds, is_released, mark_from, right_from};
ghost use Rattle.oss_syntax.specs.declared.access.Mode.TheVariants.{Fold};
ghost use Rattle.oss_syntax.specs.declared.access.Op.{Op};
ghost use Rattle.oss_body.specs.Acting.{acting};
ghost use Rattle.oss_body.specs.Acts.{act_seen, answer_to, creates, goes_on, passed};
ghost use Rattle.oss_body.specs.Places.{IsKey};

use crate::act::{Act, let_go};
use crate::below::Below;
use crate::frame::Frame;
use crate::own::Own;
use crate::place::Place;
use crate::tasks::Tasks;
use oss_code::{Code, TaskOrder};
use oss_judge::{Context, Right};
use oss_machine::{Ask, Failure};
use oss_model::Point;
use oss_syntax::{Access, List};
use std::alloc::{AllocError, Global};
use std::mem;

/// A body: one task of a program, and the tasks that it includes (OmpSs-2, execution model; the task directive,
/// its clause `final`). It tells the act that stands next, and goes on behind it. Of what it has done nothing
/// is kept: it costs the contexts and the machines of its tasks, and the slots of its own task.
///
/// Contracts say what holds for each start and each list of answers of which this is the body (`IsBody`).
pub struct Body {
    alloc: Global,
    own: Own,
    begun: bool,
    tasks: Tasks,
    act: Act,
    /// The key at which the task that acts does, where it is kept: a fault takes it, so that it wants no memory.
    key: Option<Point>,
    ghost judged: { passed act tasks.top.place.context ≡ true },
    ghost keyed: { IsKey key tasks.top.place },
}

// By hand, so that who lets one go calls this, and does not take it apart at each exit.
impl Drop for Body {
    fn drop(self) {
        let Body {
            alloc: _,
            own,
            begun: _,
            tasks,
            act,
            key,
        } = self;
        drop(own);
        drop(tasks);
        drop(act);
        drop(key);
    }
}

impl Body {
    ghost use Rattle.oss_body.specs.Kept.{kept};
    ghost use Rattle.oss_body.specs.Relation.{HasStarted, IsBody, has_begun, has_wait, is_over, is_some, pending_of, released_by};
    ghost use Rattle.oss_body.specs.Rushed.{HasRushed};

    /// The body of a task at its start: with this order, in this context, at this point. The code is the one in
    /// which the order was asked for. Condition: the point has one number more than there are tasks above the
    /// task, which are 64 at most.
    pub fn start(
        alloc: Global,
        code: &Code,
        order: &TaskOrder,
        context: Context,
        point: Point,
    ) -> Result<Body, AllocError>
        requires numbers { length point ≡ suc context.depth }
        requires depth { context.depth ≤ 64 }
        ensures { IfOk result (λ body. (path : Items ℕ) → point ≡ written path →
            IsBody code.now (record { order = meant_order order.now; context = context; path = path }) [] body) }
    {
        let own = Own::new(alloc, order, &context)?;
        let top = Frame::new(alloc, code, order, Place::new(context, point))?;
        Body::begin(alloc, code, own, top)
    }

    /// The body of a task that has done nothing.
    fn begin(alloc: Global, code: &Code, own: Own, top: Frame) -> Result<Body, AllocError>
        ensures { IfOk result (λ body. (start : Start CodeScript) → HasStarted start own →
            top ≡ kept code.now (start_frame (asks code.now) start) → IsBody code.now start [] body) }
    {
        let mut top = top;
        let mut key = None;
        let act = top.next(alloc, code, &own.context, false, &mut key)?;
        Ok(Body {
            alloc,
            own,
            begun: false,
            tasks: Tasks {
                top,
                below: Below::new(alloc),
                ended: false,
            },
            act,
            key,
        })
    }

    /// The act that stands next, or the fault in its place. Condition: the body has not ended. It takes no memory.
    pub fn pending(&self) -> &Act
        requires running { is_over self.now ≡ false }
        ensures kept { result.now ≡ pending_of self.now }
        ensures act { (code : CodeParts) (start : Start CodeScript) (found : Items ℕ) →
            IsBody code start found self.now → act_seen result.now ≡ stage_act (asks code) start found }
    {
        &self.act
    }

    /// The pending act has happened, and a load found this number, which else says nothing. The code is the one
    /// with which the body was started. Where memory is wanting the body stays: it has the same start, the same
    /// answers and the same pending act, and the call may be made again. Condition: the body has not ended, and
    /// the act is no fault.
    pub fn advance(&mut self, code: &Code, loaded: u64) -> Result<(), AllocError>
        requires running { is_over self.old ≡ false }
        requires goes { goes_on (pending_of self.old) ≡ true }
        ensures ok { OnOk result ((start : Start CodeScript) (found : Items ℕ) →
            IsBody code.now start found self.old → IsBody code.now start
            (answer_to (act_seen (pending_of self.old)) loaded ∷ found) self.new) }
        ensures stays { OnErr result ((parts : CodeParts) (start : Start CodeScript) (found : Items ℕ) →
            IsBody parts start found self.old → IsBody parts start found self.new) }
        ensures pending { OnErr result (pending_of self.new ≡ pending_of self.old) }
        ensures running { OnErr result (is_over self.new ≡ false) }
    {
        if self.advance_at_once(code, loaded) {
            return Ok(());
        }
        self.advance_by_draft(code, loaded)
    }

    /// The same where nothing wants memory: the act is a tick, a load, or a store that marks no cell anew, and the
    /// next is a tick, a load, a store, a fault or the end. Otherwise the body stays, and this tells it.
    #[inline(always)]
    fn advance_at_once(&mut self, code: &Code, loaded: u64) -> bool
        requires running { is_over self.old ≡ false }
        ensures went { result ≡ true → (start : Start CodeScript) (found : Items ℕ) →
            IsBody code.now start found self.old → IsBody code.now start
            (answer_to (act_seen (pending_of self.old)) loaded ∷ found) self.new }
        ensures stays { result ≡ false → (parts : CodeParts) (start : Start CodeScript) (found : Items ℕ) →
            IsBody parts start found self.old → IsBody parts start found self.new }
        ensures pending { result ≡ false → pending_of self.new ≡ pending_of self.old }
        ensures running { result ≡ false → is_over self.new ≡ false }
    {
        match self
            .tasks
            .follow_at_once(code, &self.act, loaded, &mut self.key)
        {
            Some(act) => {
                let_go(mem::replace(&mut self.act, act));
                self.begun = true;
                true
            }
            None => false,
        }
    }

    /// The same by a draft of the next act. Where memory is wanting the body stays.
    fn advance_by_draft(&mut self, code: &Code, loaded: u64) -> Result<(), AllocError>
        requires running { is_over self.old ≡ false }
        requires goes { goes_on (pending_of self.old) ≡ true }
        ensures ok { OnOk result ((start : Start CodeScript) (found : Items ℕ) →
            IsBody code.now start found self.old → IsBody code.now start
            (answer_to (act_seen (pending_of self.old)) loaded ∷ found) self.new) }
        ensures stays { OnErr result ((parts : CodeParts) (start : Start CodeScript) (found : Items ℕ) →
            IsBody parts start found self.old → IsBody parts start found self.new) }
        ensures pending { OnErr result (pending_of self.new ≡ pending_of self.old) }
        ensures running { OnErr result (is_over self.new ≡ false) }
    {
        let mut key = mem::replace(&mut self.key, None);
        let act = self.tasks.follow(
            self.alloc,
            code,
            &self.own.context,
            &self.act,
            loaded,
            &mut key,
        )?;
        self.own.keep(&self.act);
        drop(mem::replace(&mut self.act, act));
        drop(mem::replace(&mut self.key, key));
        self.begun = true;
        Ok(())
    }

    /// Goes on by ticks, loads and stores, at most so many: each happens to the cells as soon as it stands next. This tells
    /// how many acts these were. The rush goes through calls of functions, and stops before every other act, before a fault,
    /// before a store that marks its cell anew, and where the machine cannot go on in place; it may stop at once. The
    /// code is the one with which the body was started. Condition: the body has not ended. It takes no memory but for functions
    /// that are called, and stops where that is wanting.
    pub fn rush(&mut self, code: &Code, cells: &mut Vec<u64>, most: u64) -> u64
        requires running { is_over self.old ≡ false }
        ensures rushed { (start : Start CodeScript) (found : Items ℕ) → IsBody code.now start found self.old →
            HasRushed code.now start found cells.old.items result self.new cells.new.items }
        ensures running { is_over self.new ≡ false }
    {
        if self.key.is_none() {
            return 0;
        }
        let count = self.tasks.top.rush(code, cells, most);
        if count == 0 {
            return 0;
        }
        let act = self.tasks.top.quick_act(&mut self.key);
        let_go(mem::replace(&mut self.act, act));
        self.begun = true;
        count
    }

    /// The end of the body's own task is done.
    pub fn ended(&self) -> bool
        ensures kept { result ≡ is_over self.now }
        ensures ended { (code : CodeParts) (start : Start CodeScript) (found : Items ℕ) →
            IsBody code start found self.now → result ≡ (stack_from (asks code) start found).ended }
    {
        self.tasks.ended
    }

    /// The body, at its start, of the task that the pending act creates. The code is the one with which this
    /// body was started. Condition: the body has not ended, and the act is the creation of a task that is not
    /// included.
    pub fn child(&self, code: &Code) -> Result<Body, AllocError>
        requires running { is_over self.now ≡ false }
        requires creates { creates (pending_of self.now) ≡ true }
        ensures { IfOk result (λ child. (start : Start CodeScript) (found : Items ℕ)
            (order : Order CodeScript) → IsBody code.now start found self.now →
            stage_act (asks code.now) start found ≡ Created order false →
            IsBody code.now (child_start (stack_from (asks code.now) start found).base order) [] child) }
    {
        match &self.act {
            Act::Create { creation, .. } => {
                let creation = creation.get();
                let own = Own::new(self.alloc, &creation.order, &creation.context)?;
                let top = self.tasks.top.child(self.alloc, code, creation)?;
                Body::begin(self.alloc, code, own, top)
            }
            Act::Tick => unreachable!(),
            Act::Load(_) => unreachable!(),
            Act::Store(_, _) => unreachable!(),
            Act::Fold { .. } => unreachable!(),
            Act::Await => unreachable!(),
            Act::Wait => unreachable!(),
            Act::WaitOn(_) => unreachable!(),
            Act::Release { .. } => unreachable!(),
            Act::Print { .. } => unreachable!(),
            Act::End => unreachable!(),
            Act::Fault { .. } => unreachable!(),
        }
    }

    /// The accesses of the task, as it started with them: they give its rights and the marks of the cells that
    /// it may write, each cell once, in rising order and as few as can be.
    pub fn accesses(&self) -> Result<List<Access>, AllocError>
        ensures rights { IfOk result (λ accesses. (code : CodeParts) (start : Start CodeScript)
            (found : Items ℕ) → IsBody code start found self.now → (c : ℕ) →
            right_from false accesses c ≡ held_right (right_of start.context c)) }
        ensures marks { IfOk result (λ accesses. (code : CodeParts) (start : Start CodeScript)
            (found : Items ℕ) → IsBody code start found self.now → (c : ℕ) →
            mark_from false accesses c ≡ held_mark (right_of start.context c) (mark_of start.context c)) }
        ensures rising { IfOk result (λ accesses. IsRising accesses) }
    {
        self.own.context.accesses()
    }

    /// The context of the task that acts: the body's own, or one that is included. Condition: the body has not ended. It
    /// takes no memory.
    pub fn acting(&self) -> &Context
        requires running { is_over self.now ≡ false }
        ensures { (code : CodeParts) (start : Start CodeScript) (found : Items ℕ) → IsBody code start found self.now →
            result.now ≡ (acting (asks code) start found).context }
    {
        self.tasks.top.place().context()
    }

    /// What the task that acts asks next: what its pending act, or its fault, comes from. Condition: the body has not
    /// ended. It takes no memory.
    pub fn asked(&self) -> &Ask
        requires running { is_over self.now ≡ false }
        ensures { (code : CodeParts) (start : Start CodeScript) (found : Items ℕ) → IsBody code start found self.now →
            meant_ask result.now ≡ (ask_of (asks code) (acting (asks code) start found)).ask }
    {
        self.tasks.top.ask()
    }

    /// The line to which a fault of that ask belongs, counted from 1; 0 if there is none. Condition: the body has not
    /// ended. It takes no memory.
    pub fn line(&self) -> u32
        requires running { is_over self.now ≡ false }
        ensures { (code : CodeParts) (start : Start CodeScript) (found : Items ℕ) → IsBody code start found self.now →
            result ≡ (ask_of (asks code) (acting (asks code) start found)).line }
    {
        self.tasks.top.line()
    }

    /// What failed, if the task that acts stands before a failure of the program's own meaning that has more to tell than
    /// its kind. The code is the one with which the body was made. Condition: the body has not ended. It takes no memory.
    pub fn failure(&self, code: &Code) -> Option<Failure>
        requires running { is_over self.now ≡ false }
        ensures { (start : Start CodeScript) (found : Items ℕ) → IsBody code.now start found self.now →
            result ≡ failure_of code.now (machine_at code.now (acting (asks code.now) start found).script
            (acting (asks code.now) start found).answers) }
    {
        self.tasks.top.failure(code)
    }

    /// The right to a cell with which the task has started: a release changes it no more. It takes no memory.
    pub fn right(&self, cell: u32) -> Right
        ensures { (code : CodeParts) (start : Start CodeScript) (found : Items ℕ) →
            IsBody code start found self.now → right_seen result ≡ right_of start.context cell }
    {
        self.own.context.right(cell)
    }

    /// What is in the slot of a cell of which the task has the right of a strong reduction: the fold of all
    /// that was folded into it. For every other cell the number says nothing. It takes no memory.
    pub fn slot(&self, cell: u32) -> u64
        ensures { (code : CodeParts) (start : Start CodeScript) (found : Items ℕ) (op : Op) →
            IsBody code start found self.now → right_of start.context cell ≡ Holds (Fold op) true →
            result ≡ slot_of (asks code) start cell op found }
    {
        self.own.slot(cell)
    }

    /// The point of the task.
    pub fn point(&self) -> &Point
        ensures { (code : CodeParts) (start : Start CodeScript) (found : Items ℕ) →
            IsBody code start found self.now → result.now ≡ written start.path }
    {
        self.tasks.own_place().path()
    }

    /// Whether the task has released a cell. A task that it includes has not: that releases a right of its own.
    /// It takes no memory.
    pub fn has_released(&self, cell: u32) -> bool
        ensures kept { result ≡ released_by self.now cell }
        ensures released { (code : CodeParts) (start : Start CodeScript) (found : Items ℕ) →
            IsBody code start found self.now → result ≡
            is_released (right_of (stack_from (asks code) start found).base.context cell) }
    {
        self.tasks.own_place().context().has_released(cell)
    }

    /// A run of cells from one on, up to another: whether the task has released each of them, or none, as
    /// `has_released` tells, and where the run ends, which is at the other one or where that changes. It costs what the
    /// ranges that the task has do, and takes no memory.
    pub fn released_run(&self, from: u32, to: u32) -> (bool, u32)
        requires { from < to }
        ensures alike { (cell : ℕ) → from ≤ cell → cell < result.1 → released_by self.now cell ≡ result.0 }
        ensures some { from < result.1 }
        ensures within { result.1 ≤ to }
        ensures whole { result.1 < to → released_by self.now result.1 ≡ result.0 → ⊥ }
    {
        self.tasks.own_place().context().released_run(from, to)
    }

    /// Whether the task has the clause `wait`.
    pub fn waits(&self) -> bool
        ensures kept { result ≡ has_wait self.now }
        ensures wait { (code : CodeParts) (start : Start CodeScript) (found : Items ℕ) →
            IsBody code start found self.now → result ≡ start.order.wait }
    {
        self.own.wait
    }

    /// The priority of the task. It orders nothing that the program can see.
    pub fn priority(&self) -> i64
        ensures { (code : CodeParts) (start : Start CodeScript) (found : Items ℕ) →
            IsBody code start found self.now → result ≡ start.order.priority }
    {
        self.own.priority
    }

    /// Whether an act of the body is done.
    pub fn begun(&self) -> bool
        ensures kept { result ≡ has_begun self.now }
        ensures begun { (code : CodeParts) (start : Start CodeScript) (found : Items ℕ) →
            IsBody code start found self.now → result ≡ is_some found }
    {
        self.begun
    }
}
