//! How a task looks ahead at its next act, so that nothing has changed yet where memory is wanting.
ghost use Rattle.std.specs.Prelude.{◌≡◌, ◌≤◌, ◌∷◌, ◌++◌, [], ℕ, true, false, not, IfOk, OnOk, OnErr, Ok as Gave, Some};
ghost use Rattle.oss_code.specs.declared.code.CodeParts.{CodeParts};
ghost use Rattle.oss_machine.specs.Asks.{meant_ask};
ghost use Rattle.oss_machine.specs.Frames.{CodeScript};
ghost use Rattle.oss_machine.specs.Machines.{asks, machine_at};
ghost use Rattle.oss_model.specs.Bodies.{Frame as Meant, frame_act, judged_act, settled_frame};
ghost use Rattle.oss_model.specs.Context.{right_of};
ghost use Rattle.oss_body.specs.Acts.{act_seen, answer_to, passed};
ghost use Rattle.oss_body.specs.Behind.{IsAhead, answered_standing, awaits_by, context_behind};
ghost use Rattle.oss_body.specs.Drafts.{IsDraft, draft_fault, drafted};
ghost use Rattle.oss_body.specs.Silent.{is_silent, past_standing, settled_standing};

use crate::act::Act;
use crate::draft::Draft;
use crate::place::Place;
use oss_code::Code;
use oss_judge::Context;
use oss_machine::{Ask, Machine};
use oss_model::Point;
use std::alloc::{AllocError, Global};

/// What a task knows of the state in which it will make its next act: how many tasks it has created by then,
/// and whether it awaits the newest.
#[derive(Clone, Copy)]
pub(crate) struct Ahead {
    pub(crate) created: u32,
    pub(crate) awaits: bool,
}

/// The ask is no act.
fn is_silent(ask: &Ask, begins: bool, awaits: bool) -> bool
    ensures { result ≡ is_silent begins awaits (meant_ask ask.now) }
{
    match ask {
        Ask::Begin => begins,
        Ask::Await => !awaits,
        Ask::Tick => false,
        Ask::Read(_) => false,
        Ask::Write(_, _) => false,
        Ask::Fold(_, _, _) => false,
        Ask::Create(_) => false,
        Ask::Wait => false,
        Ask::WaitOn(_) => false,
        Ask::Release(_) => false,
        Ask::Print(_) => false,
        Ask::End => false,
        Ask::Fault(_) => false,
    }
}

/// Looks past an ask that is no act. Tells whether there was one.
fn pass(machine: &mut Machine, code: &Code, begins: bool, awaits: bool) -> Result<bool, AllocError>
    ensures stays { machine.new.stands ≡ machine.old.stands }
    ensures passed { OnOk result (machine.new.ahead ≡ past_standing code.now begins awaits machine.old.ahead) }
    ensures none { result ≡ Gave false → past_standing code.now begins awaits machine.old.ahead ≡ machine.old.ahead }
{
    if !is_silent(machine.ask_ahead(), begins, awaits) {
        return Ok(false);
    }
    machine.look(code, 0)?;
    Ok(true)
}

/// Looks past the asks that are no acts, two in a row at most.
fn settle(machine: &mut Machine, code: &Code, begins: bool, awaits: bool) -> Result<(), AllocError>
    ensures stays { machine.new.stands ≡ machine.old.stands }
    ensures settled { OnOk result (machine.new.ahead ≡ settled_standing code.now begins awaits machine.old.ahead) }
{
    if pass(machine, code, begins, awaits)? {
        pass(machine, code, begins, awaits)?;
    }
    Ok(())
}

/// Looks at how the machine goes on behind an act.
fn look_behind(machine: &mut Machine, code: &Code, act: &Act, loaded: u64) -> Result<(), AllocError>
    ensures stays { machine.new.stands ≡ machine.old.stands }
    ensures ahead { OnOk result (machine.new.ahead ≡ answered_standing code.now (act_seen act.now)
        (answer_to (act_seen act.now) loaded) machine.old.ahead) }
{
    match act {
        Act::Load(_) => machine.look(code, loaded),
        Act::Await => Ok(()),
        Act::Tick => machine.look(code, 0),
        Act::Store(_, _) => machine.look(code, 0),
        Act::Fold { .. } => machine.look(code, 0),
        Act::Create { .. } => machine.look(code, 0),
        Act::Wait => machine.look(code, 0),
        Act::WaitOn(_) => machine.look(code, 0),
        Act::Release { .. } => machine.look(code, 0),
        Act::Print { .. } => machine.look(code, 0),
        Act::End => machine.look(code, 0),
        Act::Fault { .. } => machine.look(code, 0),
    }
}

/// Whether the task awaits the newest one behind an act.
pub(crate) fn awaits_behind(act: &Act, awaits: bool) -> bool
    ensures { result ≡ awaits_by act.now awaits }
{
    match act {
        Act::Create { creation, .. } => !creation.get().order.when,
        Act::Await => false,
        Act::Tick => awaits,
        Act::Load(_) => awaits,
        Act::Store(_, _) => awaits,
        Act::Fold { .. } => awaits,
        Act::Wait => awaits,
        Act::WaitOn(_) => awaits,
        Act::Release { .. } => awaits,
        Act::Print { .. } => awaits,
        Act::End => awaits,
        Act::Fault { .. } => awaits,
    }
}

/// The draft of what the machine asks ahead, or an await.
fn draft_ahead(
    alloc: Global,
    machine: &Machine,
    place: &Place,
    own: &Context,
    included: bool,
    ahead: Ahead,
) -> Result<Draft, AllocError>
    requires few { ahead.created ≤ 65535 }
    ensures means { IfOk result (λ draft. (code : CodeParts) (f : Meant CodeScript) →
        IsAhead code f machine.now.ahead place.now ahead.created ahead.awaits →
        frame_act (asks code) (right_of own.now) included f f.awaits ≡ judged_act f machine.now.ahead.asked.line
        (draft_fault f.context draft) (drafted draft)) }
    ensures right { IfOk result (λ draft. IsDraft place.now.context draft) }
{
    if ahead.awaits {
        return Ok(Draft::Plain(Act::Await));
    }
    place.draft(alloc, own, included, machine.ask_ahead(), ahead.created)
}

/// Looks past what is no act, and makes the draft of what stands next.
pub(crate) fn reach(
    alloc: Global,
    code: &Code,
    machine: &mut Machine,
    place: &Place,
    own: &Context,
    included: bool,
    ahead: Ahead,
) -> Result<Draft, AllocError>
    requires few { ahead.created ≤ 65535 }
    ensures stays { machine.new.stands ≡ machine.old.stands }
    ensures ahead { OnOk result ((f : Meant CodeScript) →
        IsAhead code.now f machine.old.ahead place.now ahead.created ahead.awaits →
        machine.new.ahead ≡ machine_at code.now (settled_frame (asks code.now) f).script
        (settled_frame (asks code.now) f).answers) }
    ensures means { IfOk result (λ draft. (f : Meant CodeScript) →
        IsAhead code.now f machine.old.ahead place.now ahead.created ahead.awaits →
        frame_act (asks code.now) (right_of own.now) included (settled_frame (asks code.now) f)
        (settled_frame (asks code.now) f).awaits ≡ judged_act (settled_frame (asks code.now) f)
        machine.new.ahead.asked.line (draft_fault (settled_frame (asks code.now) f).context draft) (drafted draft)) }
    ensures right { IfOk result (λ draft. IsDraft place.now.context draft) }
{
    let begins = place.may_begin(ahead.created);
    settle(machine, code, begins, ahead.awaits)?;
    draft_ahead(alloc, machine, place, own, included, ahead)
}

/// Looks at how the task goes on behind an act, makes the draft of what stands next, and then lets the act
/// happen at its place, where that leaves the task the one that acts. Where memory is wanting the place stays,
/// and the machine has at most looked ahead.
pub(crate) fn reach_behind(
    alloc: Global,
    code: &Code,
    machine: &mut Machine,
    place: &mut Place,
    own: &Context,
    included: bool,
    act: &Act,
    loaded: u64,
    ahead: Ahead,
) -> Result<Draft, AllocError>
    requires few { ahead.created ≤ 65535 }
    requires passed { passed act.now place.old.context ≡ true }
    ensures stays { machine.new.stands ≡ machine.old.stands }
    ensures ahead { OnOk result ((f : Meant CodeScript) →
        IsAhead code.now f (answered_standing code.now (act_seen act.now) (answer_to (act_seen act.now) loaded)
        machine.old.ahead) place.old ahead.created ahead.awaits →
        machine.new.ahead ≡ machine_at code.now (settled_frame (asks code.now) f).script
        (settled_frame (asks code.now) f).answers) }
    ensures means { IfOk result (λ draft. (f : Meant CodeScript) →
        IsAhead code.now f (answered_standing code.now (act_seen act.now) (answer_to (act_seen act.now) loaded)
        machine.old.ahead) place.old ahead.created ahead.awaits →
        frame_act (asks code.now) (right_of own.now) included (settled_frame (asks code.now) f)
        (settled_frame (asks code.now) f).awaits ≡ judged_act (settled_frame (asks code.now) f)
        machine.new.ahead.asked.line (draft_fault (settled_frame (asks code.now) f).context draft) (drafted draft)) }
    ensures right { IfOk result (λ draft. IsDraft place.old.context draft) }
    ensures place { OnOk result (place.new ≡ record place.old { context = context_behind act.now place.old.context }) }
    ensures err { OnErr result (place.new ≡ place.old) }
{
    look_behind(machine, code, act, loaded)?;
    let draft = reach(alloc, code, machine, place, own, included, ahead)?;
    match place.apply(act) {
        Ok(()) => Ok(draft),
        Err(full) => {
            drop(draft);
            Err(full)
        }
    }
}

/// Makes the key at which the task will act once it has created so many, where it is not kept yet.
pub(crate) fn fill(key: &mut Option<Point>, place: &Place, created: u32) -> Result<(), AllocError>
    requires few { created ≤ 65535 }
    requires kept { (k : _) → key.old ≡ Some k → k ≡ place.now.path ++ created ∷ [] }
    ensures ok { OnOk result (key.new ≡ Some (place.now.path ++ created ∷ [])) }
    ensures err { OnErr result (key.new ≡ key.old) }
{
    if key.is_none() {
        *key = Some(place.key_behind(created)?);
    }
    Ok(())
}
