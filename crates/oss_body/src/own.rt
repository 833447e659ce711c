//! What a body keeps of its start, and its slots.
ghost use Rattle.std.specs.Prelude.{◌≡◌, ◌==◌, ℕ, true, if◌then◌else◌, Some, None, IfOk, OnOk};
ghost use Rattle.oss_model.specs.Bodies.{word_of};
ghost use Rattle.oss_model.specs.Context.{right_of};
ghost use Rattle.oss_model.specs.Moves.{combine, slot_more};
ghost use Rattle.oss_model.specs.Rights.{Holds, in_access};
ghost use Rattle.oss_slots.specs.Slots.{fresh, slot_at};
ghost use Rattle.oss_syntax.specs.declared.access.Mode.TheVariants.{Fold};
ghost use Rattle.oss_syntax.specs.declared.access.Op.{Op as OpMeant};
ghost use Rattle.oss_body.specs.Acts.{act_seen};
ghost use Rattle.oss_body.specs.Slots.{added, slot_from, strong_op};

use crate::act::Act;
use oss_code::TaskOrder;
use oss_judge::Context;
use oss_slots::Slots;
use oss_syntax::{Access, Mode, Op};
use std::alloc::{AllocError, Global};

/// How a body started, and the slots of its task.
pub(crate) struct Own {
    pub(crate) context: Context,
    pub(crate) wait: bool,
    pub(crate) priority: i64,
    pub(crate) slots: Slots,
}

// By hand, so that who lets one go calls this, and does not take it apart at each exit.
impl Drop for Own {
    fn drop(self) {
        let Own {
            context,
            wait: _,
            priority: _,
            slots,
        } = self;
        drop(context);
        drop(slots);
    }
}

impl Own {
    /// What is kept of the start of a task with this order and this context.
    pub(crate) fn new(
        alloc: Global,
        order: &TaskOrder,
        context: &Context,
    ) -> Result<Own, AllocError>
        ensures context { IfOk result (λ own. own.context ≡ context.now) }
        ensures wait { IfOk result (λ own. own.wait ≡ order.now.wait) }
        ensures priority { IfOk result (λ own. own.priority ≡ order.now.priority) }
        ensures slots { IfOk result (λ own. (c : ℕ) (op : OpMeant) →
            right_of context.now c ≡ Holds (Fold op) true → slot_at own.slots c ≡ Some (fresh op)) }
    {
        let accesses = context.accesses()?;
        let slots = slots_of(alloc, accesses.as_slice())?;
        let context = context.copy()?;
        Ok(Own {
            context,
            wait: order.wait,
            priority: order.priority,
            slots,
        })
    }

    /// Keeps an act that has happened, if it is a fold into a slot. It takes no memory.
    pub(crate) fn keep(&mut self, act: &Act)
        ensures slots { (c : ℕ) (op : OpMeant) (held : ℕ) →
            slot_at self.old.slots c ≡ Some (record { op = op; value = held }) →
            slot_at self.new.slots c ≡ Some (record { op = op; value = slot_more (act_seen act.now) c op held }) }
        ensures rest { self.new ≡ record self.old { slots = self.new.slots } }
    {
        match act {
            Act::Fold {
                cell,
                value,
                slot,
                ..
            } => {
                if *slot {
                    fold_into(&mut self.slots, *cell, *value);
                }
            }
            Act::Tick => {}
            Act::Load(_) => {}
            Act::Store(_, _) => {}
            Act::Create { .. } => {}
            Act::Await => {}
            Act::Wait => {}
            Act::WaitOn(_) => {}
            Act::Release { .. } => {}
            Act::Print { .. } => {}
            Act::End => {}
            Act::Fault { .. } => {}
        }
    }

    /// What is in the slot of a cell; 0 where the task has no slot for it. It takes no memory.
    pub(crate) fn slot(&self, cell: u32) -> u64
        ensures { (op : OpMeant) (held : ℕ) → slot_at self.now.slots cell ≡
            Some (record { op = op; value = held }) → result ≡ held }
    {
        if self.slots.has(cell) {
            self.slots.value(cell)
        } else {
            0
        }
    }
}

/// The slots that these accesses give to a task.
fn slots_of(alloc: Global, accesses: &[Access]) -> Result<Slots, AllocError>
    ensures { IfOk result (λ slots. (c : ℕ) → slot_at slots c ≡ slot_from accesses.now c None) }
{
    let mut slots = Slots::new(alloc);
    for access in accesses {
        add_slots(&mut slots, access)?;
    }
    Ok(slots)
}

/// Adds the slots of an access, if it is a strong reduction.
fn add_slots(slots: &mut Slots, access: &Access) -> Result<(), AllocError>
    ensures { OnOk result ((c : ℕ) → slot_at slots.new c ≡
        (if in_access access.now c then added (strong_op access.now.mode access.now.strong)
        (slot_at slots.old c) else slot_at slots.old c)) }
{
    match op_of(access) {
        Some(op) => slots.add(access.range, op),
        None => Ok(()),
    }
}

/// The operator of a strong reduction.
fn op_of(access: &Access) -> Option<Op>
    ensures { result ≡ strong_op access.now.mode access.now.strong }
{
    match access.mode {
        Mode::Fold(op) => { if access.strong { Some(op) } else { None } }
        Mode::Read => None,
        Mode::Write => None,
    }
}

/// Folds a value into the slot of a cell, if there is one.
fn fold_into(slots: &mut Slots, cell: u32, value: u64)
    ensures { (c : ℕ) (op : OpMeant) (held : ℕ) → slot_at slots.old c ≡
        Some (record { op = op; value = held }) → slot_at slots.new c ≡
        Some (record { op = op; value = if cell == c then combine op held (word_of value) else held }) }
{
    if slots.has(cell) {
        slots.fold(cell, value);
    }
}
