//! Bodies in boxes.

ghost use Rattle.std.specs.Prelude.{◌≡◌, ◌∷◌, ◌≤◌, ◌<◌, [], List as Items, ℕ, length, true, false, IfOk, OnErr, OnOk};
ghost use Rattle.oss_code.specs.declared.code.CodeParts.{CodeParts};
ghost use Rattle.oss_judge.specs.Joined.{IsRising, held_mark, held_right};
ghost use Rattle.oss_machine.specs.Frames.{CodeScript};
ghost use Rattle.oss_machine.specs.Machines.{asks};
ghost use Rattle.oss_model.specs.Bodies.{Order, Start, Created, child_start, stack_from, stage_act};
ghost use Rattle.oss_model.specs.Context.{mark_of, right_of};
ghost use Rattle.oss_model.specs.Moves.{slot_of};
ghost use Rattle.oss_model.specs.Order.{written};
ghost use Rattle.oss_model.specs.Rights.{Holds, is_released, mark_from, right_from};
ghost use Rattle.oss_syntax.specs.declared.access.Mode.TheVariants.{Fold};
ghost use Rattle.oss_syntax.specs.declared.access.Op.{Op};
ghost use Rattle.oss_body.specs.Acts.{act_seen, answer_to, creates, goes_on};
ghost use Rattle.oss_body.specs.Mains.{code_main};

use oss_body::{Act, Body, main_body};
use oss_code::Code;
use oss_model::Point;
use oss_syntax::{Access, List};
use std::alloc::{AllocError, Global};
use std::marker::Model;

/// A body in a box, so that it moves as one address from list to list. Contracts see the body in it, and its
/// calls are those of the body.
pub struct BoxedBody {
    alloc: Global,
    place: Box<Body>,
}

// By hand, so that who lets one go calls this, and does not take it apart at each exit.
impl Drop for BoxedBody {
    fn drop(self) {
        let BoxedBody { alloc: _, place } = self;
        drop(place);
    }
}

impl Model for BoxedBody {
    ghost use Rattle.oss_body.specs.declared.body.Body.{Body as Known};

    ghost Value = { Known };

    ghost view = { λ boxed. boxed.place.value };
}

impl BoxedBody {
    ghost use Rattle.oss_body.specs.Relation.{IsBody, has_begun, has_wait, is_over, is_some, pending_of, released_by};

    /// The body, in a box. Want of memory is the one error, and then the body is let go.
    pub fn of(alloc: Global, body: Body) -> Result<BoxedBody, AllocError>
        ensures { IfOk result (λ boxed. boxed ≡ body) }
    {
        let place = Box::new(alloc, body)?;
        Ok(BoxedBody { alloc, place })
    }

    /// The body, out of its box. It takes no memory.
    pub fn into_body(self) -> Body
        ensures { result ≡ self }
    {
        let BoxedBody { alloc: _, place } = self;
        Box::into_inner(place)
    }

    /// The body of main at its start, with this fuel, as `main_body` gives it. Want of memory is the one error.
    /// Condition: the code has at most 1,048,576 cells.
    pub fn main(alloc: Global, code: &Code, fuel: u32) -> Result<BoxedBody, AllocError>
        requires { length code.now.first ≤ 1048576 }
        ensures { IfOk result (λ body. IsBody code.now (code_main code.now fuel) [] body) }
    {
        let body = main_body(alloc, code, fuel)?;
        BoxedBody::of(alloc, body)
    }

    /// The act that stands next, or the fault in its place. Condition: the body has not ended. It takes no memory.
    pub fn pending(&self) -> &Act
        requires running { is_over self.now ≡ false }
        ensures kept { result.now ≡ pending_of self.now }
        ensures act { (code : CodeParts) (start : Start CodeScript) (found : Items ℕ) →
            IsBody code start found self.now → act_seen result.now ≡ stage_act (asks code) start found }
    {
        self.place.pending()
    }

    /// The pending act has happened, and a load found this number, as `Body::advance` tells. Where memory is wanting
    /// the body stays: it has the same start, the same answers and the same pending act. Condition: the body has not
    /// ended, and the act is no fault.
    pub fn advance(&mut self, code: &Code, loaded: u64) -> Result<(), AllocError>
        requires running { is_over self.old ≡ false }
        requires goes { goes_on (pending_of self.old) ≡ true }
        ensures ok { OnOk result ((start : Start CodeScript) (found : Items ℕ) →
            IsBody code.now start found self.old → IsBody code.now start
            (answer_to (act_seen (pending_of self.old)) loaded ∷ found) self.new) }
        ensures stays { OnErr result ((parts : CodeParts) (start : Start CodeScript) (found : Items ℕ) →
            IsBody parts start found self.old → IsBody parts start found self.new) }
        ensures pending { OnErr result (pending_of self.new ≡ pending_of self.old) }
        ensures running { OnErr result (is_over self.new ≡ false) }
    {
        self.place.advance(code, loaded)
    }

    /// The end of the body's own task is done.
    pub fn ended(&self) -> bool
        ensures kept { result ≡ is_over self.now }
        ensures ended { (code : CodeParts) (start : Start CodeScript) (found : Items ℕ) →
            IsBody code start found self.now → result ≡ (stack_from (asks code) start found).ended }
    {
        self.place.ended()
    }

    /// The body, at its start, of the task that the pending act creates, in a box of its own. Want of memory is the one
    /// error. Condition: the body has not ended, and the act is the creation of a task that is not included.
    pub fn child(&self, code: &Code) -> Result<BoxedBody, AllocError>
        requires running { is_over self.now ≡ false }
        requires creates { creates (pending_of self.now) ≡ true }
        ensures { IfOk result (λ child. (start : Start CodeScript) (found : Items ℕ)
            (order : Order CodeScript) → IsBody code.now start found self.now →
            stage_act (asks code.now) start found ≡ Created order false →
            IsBody code.now (child_start (stack_from (asks code.now) start found).base order) [] child) }
    {
        let child = self.place.child(code)?;
        BoxedBody::of(self.alloc, child)
    }

    /// The accesses of the task, as it started with them. Want of memory is the one error.
    pub fn accesses(&self) -> Result<List<Access>, AllocError>
        ensures rights { IfOk result (λ accesses. (code : CodeParts) (start : Start CodeScript)
            (found : Items ℕ) → IsBody code start found self.now → (c : ℕ) →
            right_from false accesses c ≡ held_right (right_of start.context c)) }
        ensures marks { IfOk result (λ accesses. (code : CodeParts) (start : Start CodeScript)
            (found : Items ℕ) → IsBody code start found self.now → (c : ℕ) →
            mark_from false accesses c ≡ held_mark (right_of start.context c) (mark_of start.context c)) }
        ensures rising { IfOk result (λ accesses. IsRising accesses) }
    {
        self.place.accesses()
    }

    /// What is in the slot of a cell of which the task has the right of a strong reduction. For every other cell the
    /// number says nothing. It takes no memory.
    pub fn slot(&self, cell: u32) -> u64
        ensures { (code : CodeParts) (start : Start CodeScript) (found : Items ℕ) (op : Op) →
            IsBody code start found self.now → right_of start.context cell ≡ Holds (Fold op) true →
            result ≡ slot_of (asks code) start cell op found }
    {
        self.place.slot(cell)
    }

    /// The point of the task.
    pub fn point(&self) -> &Point
        ensures { (code : CodeParts) (start : Start CodeScript) (found : Items ℕ) →
            IsBody code start found self.now → result.now ≡ written start.path }
    {
        self.place.point()
    }

    /// Whether the task has released a cell. It takes no memory.
    pub fn has_released(&self, cell: u32) -> bool
        ensures kept { result ≡ released_by self.now cell }
        ensures released { (code : CodeParts) (start : Start CodeScript) (found : Items ℕ) →
            IsBody code start found self.now → result ≡
            is_released (right_of (stack_from (asks code) start found).base.context cell) }
    {
        self.place.has_released(cell)
    }

    /// A run of cells from one on, up to another: whether the task has released each of them, or none, and where the
    /// run ends, which is at the other one or where that changes. It takes no memory.
    pub fn released_run(&self, from: u32, to: u32) -> (bool, u32)
        requires { from < to }
        ensures alike { (cell : ℕ) → from ≤ cell → cell < result.1 → released_by self.now cell ≡ result.0 }
        ensures some { from < result.1 }
        ensures within { result.1 ≤ to }
        ensures whole { result.1 < to → released_by self.now result.1 ≡ result.0 → ⊥ }
    {
        self.place.released_run(from, to)
    }

    /// Whether the task has the clause `wait`.
    pub fn waits(&self) -> bool
        ensures kept { result ≡ has_wait self.now }
        ensures wait { (code : CodeParts) (start : Start CodeScript) (found : Items ℕ) →
            IsBody code start found self.now → result ≡ start.order.wait }
    {
        self.place.waits()
    }

    /// The value of the clause `priority` of the task.
    pub fn priority(&self) -> i64
        ensures { (code : CodeParts) (start : Start CodeScript) (found : Items ℕ) →
            IsBody code start found self.now → result ≡ start.order.priority }
    {
        self.place.priority()
    }

    /// Whether an act of the body is done.
    pub fn begun(&self) -> bool
        ensures kept { result ≡ has_begun self.now }
        ensures begun { (code : CodeParts) (start : Start CodeScript) (found : Items ℕ) →
            IsBody code start found self.now → result ≡ is_some found }
    {
        self.place.begun()
    }
}
