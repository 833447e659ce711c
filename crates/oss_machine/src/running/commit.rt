//! How what has moved takes the place of what stood.
ghost use Rattle.std.specs.Prelude.{◌≡◌, ◌∷◌, [], ◌++◌, ◌+◌, ◌<◌, ◌≤◌, OnErr, OnOk, length, slice_index_or, take, vec_capacity};
ghost use Rattle.std.specs.List.{remove};
ghost use Rattle.oss_machine.specs.Activations.{Base, base_in, before, frame_on, no_base};
ghost use Rattle.oss_machine.specs.Runs.{IsCounted, IsRun, base_at, below_live, config_in, config_of, stacked};

use crate::activation::{Activation, Gathered};
use crate::running::body::{Run, Still};
use crate::running::entry::continue_from;
use std::alloc::AllocError;
use std::mem;

/// A body begins to make silent steps: so far it stands as it did.
pub(crate) fn begin(still: &Still, run: &mut Run, open_count: usize) -> Result<(), AllocError>
    requires { IsCounted open_count (config_of still.now) }
    ensures same { OnOk result (config_in still.now run.new ≡ config_of still.now) }
    ensures run { OnOk result (IsRun still.now run.new) }
{
    run.waiting.clear();
    run.live = still.callers.len();
    run.open_count = open_count;
    continue_from(&mut run.work, &still.top)
}

/// Adds accesses and ranges behind those gathered before, where they are added to. Where memory is wanting these stay.
fn gather(
    base: &mut Gathered,
    more: &Gathered,
    adds_accesses: bool,
    adds_ranges: bool,
) -> Result<(), AllocError>
    ensures accesses { OnOk result (base.new.accesses.items ≡ base.old.accesses.items ++
        before adds_accesses more.now.accesses.items) }
    ensures ranges { OnOk result (base.new.ranges.items ≡ base.old.ranges.items ++
        before adds_ranges more.now.ranges.items) }
    ensures err { OnErr result (base_in base.new ≡ base_in base.old) }
{
    let count = base.accesses.len();
    if adds_accesses && !more.accesses.is_empty() {
        base.accesses.extend_from_slice(more.accesses.as_slice())?;
    }
    if adds_ranges && !more.ranges.is_empty() {
        match base.ranges.extend_from_slice(more.ranges.as_slice()) {
            Ok(()) => {}
            Err(full) => {
                base.accesses.truncate(count);
                return Err(full);
            }
        }
    }
    Ok(())
}

/// An activation takes the place of that which it continues. Where memory is wanting both stay.
fn replace(base: &mut Activation, moved: &mut Activation) -> Result<(), AllocError>
    ensures ok { OnOk result (frame_on no_base base.new ≡ frame_on (base_in base.old.gathered) moved.old) }
    ensures err { OnErr result ((frame_on no_base base.new ≡ frame_on no_base base.old) ×
        (base_in base.new.gathered ≡ base_in base.old.gathered)) }
    ensures moved { OnErr result (moved.new ≡ moved.old) }
{
    gather(
        &mut base.gathered,
        &moved.gathered,
        moved.adds_accesses,
        moved.adds_ranges,
    )?;
    if !moved.adds_accesses {
        mem::swap(&mut base.gathered.accesses, &mut moved.gathered.accesses);
    }
    if !moved.adds_ranges {
        mem::swap(&mut base.gathered.ranges, &mut moved.gathered.ranges);
    }
    mem::swap(&mut base.stack, &mut moved.stack);
    mem::swap(&mut base.locals, &mut moved.locals);
    base.at = moved.at;
    base.call_line = moved.call_line;
    base.clauses = moved.clauses;
    base.turns = moved.turns;
    base.adds_accesses = false;
    base.adds_ranges = false;
    Ok(())
}

/// An activation takes the place of a caller that stood. Where memory is wanting the callers stay, and the activation.
#[tactic(auto, using(crate::proofs::CommitLemmas::stacked_set, crate::proofs::CommitLemmas::stacked_same, crate::proofs::CommitLemmas::stacked_below, crate::proofs::CommitLemmas::set_base))]
fn replace_caller(
    callers: &mut Vec<Activation>,
    at: usize,
    moved: &mut Activation,
) -> Result<(), AllocError>
    requires { at < length callers.old.items }
    ensures ok { OnOk result ((d : Activation) → stacked no_base (take (at + 1) callers.new.items) [] ≡
        frame_on (base_in (slice_index_or callers.old.items at d).gathered) moved.old ∷ stacked no_base
        (take at callers.old.items) []) }
    ensures err { OnErr result (stacked no_base callers.new.items [] ≡ stacked no_base callers.old.items []) }
    ensures below { OnErr result (stacked no_base (take at callers.new.items) [] ≡ stacked no_base
        (take at callers.old.items) []) }
    ensures base { OnErr result ((d : Activation) → base_in (slice_index_or callers.new.items at d).gathered ≡
        base_in (slice_index_or callers.old.items at d).gathered) }
    ensures moved { OnErr result (moved.new ≡ moved.old) }
    ensures len { length callers.new.items ≡ length callers.old.items }
    ensures capacity { vec_capacity callers.new ≡ vec_capacity callers.old }
{
    let base = &mut callers[at];
    replace(base, moved)
}

/// The lowest function that has moved takes the place of that which it continues, and those above are gone.
/// Where memory is wanting the body stays, and what has moved.
#[tactic(auto, using(crate::proofs::CommitLemmas::popped_frame, crate::proofs::CommitLemmas::popped_rest))]
fn settle_lowest(still: &mut Still, live: usize, moved: &mut Activation) -> Result<(), AllocError>
    requires { live ≤ length still.old.callers.items }
    ensures frame { OnOk result ((config_of still.new).frame ≡ frame_on (base_at still.old live) moved.old) }
    ensures callers { OnOk result ((config_of still.new).callers ≡ below_live still.old live) }
    ensures err { OnErr result (config_of still.new ≡ config_of still.old) }
    ensures below { OnErr result (below_live still.new live ≡ below_live still.old live) }
    ensures base { OnErr result (base_at still.new live ≡ base_at still.old live) }
    ensures moved { OnErr result (moved.new ≡ moved.old) }
    ensures stays { OnErr result (length still.new.callers.items ≡ length still.old.callers.items) }
    ensures len { OnOk result (length still.new.callers.items ≡ live) }
    ensures capacity { vec_capacity still.new.callers ≡ vec_capacity still.old.callers }
{
    if live == still.callers.len() {
        return replace(&mut still.top, moved);
    }
    replace_caller(&mut still.callers, live, moved)?;
    still.callers.truncate(live + 1);
    match still.callers.pop() {
        Some(base) => still.top = base,
        None => {}
    }
    Ok(())
}

/// The functions that wait above the lowest of those that have moved, and the one that runs, come to stand
/// above it. What is spare takes the place of the one that runs, so that its room is used again. It takes no memory.
#[tactic(auto, using(crate::proofs::CommitLemmas::raised_callers))]
fn raise(spare: Activation, still: &mut Still, run: &mut Run)
    requires { length still.old.callers.items + length run.old.waiting.items < vec_capacity still.old.callers }
    ensures frame { (config_of still.new).frame ≡ frame_on no_base run.old.work }
    ensures callers { (config_of still.new).callers ≡ stacked no_base run.old.waiting.items
        ((config_of still.old).frame ∷ (config_of still.old).callers) }
{
    let work = mem::replace(&mut run.work, spare);
    let lowest = mem::replace(&mut still.top, work);
    still.callers.push_reserved(lowest);
    let _raised = still.callers.append(&mut run.waiting);
}

/// What has moved takes the place of what stood. Where memory is wanting the body stays, and what has moved.
pub(crate) fn commit(still: &mut Still, run: &mut Run) -> Result<(), AllocError>
    requires { IsRun still.old run.old }
    ensures ok { OnOk result (config_of still.new ≡ config_in still.old run.old) }
    ensures err { OnErr result (config_of still.new ≡ config_of still.old) }
    ensures moved { OnErr result (config_in still.new run.new ≡ config_in still.old run.old) }
    ensures run { OnErr result (IsRun still.new run.new) }
{
    if run.waiting.is_empty() {
        return commit_alone(still, run);
    }
    commit_waiting(still, run)
}

/// The same where no function that has moved waits.
#[tactic(auto, using(crate::proofs::CommitLemmas::config_is, crate::proofs::CommitLemmas::kept_config, crate::proofs::CommitLemmas::kept_run))]
fn commit_alone(still: &mut Still, run: &mut Run) -> Result<(), AllocError>
    requires run { IsRun still.old run.old }
    requires alone { run.old.waiting.items ≡ [] }
    ensures ok { OnOk result (config_of still.new ≡ config_in still.old run.old) }
    ensures err { OnErr result (config_of still.new ≡ config_of still.old) }
    ensures moved { OnErr result (config_in still.new run.new ≡ config_in still.old run.old) }
    ensures run { OnErr result (IsRun still.new run.new) }
{
    settle_lowest(still, run.live, &mut run.work)?;
    Ok(())
}

/// The lowest of the functions that wait takes the place of that which it continues, and those above that are
/// gone. What it leaves is spare. Where memory is wanting the body stays, and what has moved.
fn settle_first(
    still: &mut Still,
    live: usize,
    waiting: &mut Vec<Activation>,
) -> Result<Activation, AllocError>
    requires live { live ≤ length still.old.callers.items }
    requires some { 0 < length waiting.old.items }
    ensures frame { OnOk result ((d : Activation) →
        (config_of still.new).frame ≡ frame_on (base_at still.old live) (slice_index_or waiting.old.items 0 d)) }
    ensures callers { OnOk result ((config_of still.new).callers ≡ below_live still.old live) }
    ensures rest { OnOk result (waiting.new.items ≡ remove waiting.old.items 0) }
    ensures err { OnErr result (config_of still.new ≡ config_of still.old) }
    ensures below { OnErr result (below_live still.new live ≡ below_live still.old live) }
    ensures base { OnErr result (base_at still.new live ≡ base_at still.old live) }
    ensures moved { OnErr result (waiting.new.items ≡ waiting.old.items) }
    ensures stays { OnErr result (length still.new.callers.items ≡ length still.old.callers.items) }
    ensures len { OnOk result (length still.new.callers.items ≡ live) }
    ensures capacity { vec_capacity still.new.callers ≡ vec_capacity still.old.callers }
{
    let lowest = &mut waiting[0];
    settle_lowest(still, live, lowest)?;
    Ok(waiting.remove(0))
}

/// The same where one does.
#[tactic(auto, using(crate::proofs::CommitLemmas::config_is, crate::proofs::CommitLemmas::removed_first, crate::proofs::CommitLemmas::kept_config, crate::proofs::CommitLemmas::kept_run))]
fn commit_waiting(still: &mut Still, run: &mut Run) -> Result<(), AllocError>
    requires run { IsRun still.old run.old }
    requires some { 0 < length run.old.waiting.items }
    ensures ok { OnOk result (config_of still.new ≡ config_in still.old run.old) }
    ensures err { OnErr result (config_of still.new ≡ config_of still.old) }
    ensures moved { OnErr result (config_in still.new run.new ≡ config_in still.old run.old) }
    ensures run { OnErr result (IsRun still.new run.new) }
{
    let count = run.waiting.len();
    still.callers.reserve(count)?;
    let spare = settle_first(still, run.live, &mut run.waiting)?;
    raise(spare, still, run);
    Ok(())
}
