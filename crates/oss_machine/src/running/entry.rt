//! Activations at their beginning.
ghost use Rattle.std.specs.Prelude.{◌≡◌, [], IfOk, None, OnOk};
ghost use Rattle.oss_machine.specs.Activations.{Base, base_in, frame_on, no_base};
ghost use Rattle.oss_machine.specs.Frames.{first_frame};

use crate::activation::{Activation, ClauseValues, Gathered};
use oss_meaning::Value;
use std::alloc::{AllocError, Global};

/// A function has room for so many values more than stand on its stack at a time, and for so many locals more than it
/// begins with: one that goes on in place asks for room for all that it may lay until its next ask.
pub(crate) const MORE: usize = 4;

/// Nothing gathered, which takes no memory.
pub(crate) fn nothing_gathered(alloc: Global) -> Gathered
    ensures { base_in result ≡ no_base }
{
    Gathered {
        accesses: Vec::new(alloc),
        ranges: Vec::new(alloc),
    }
}

/// An activation with no values and no locals, which takes no memory.
pub(crate) fn blank(alloc: Global) -> Activation
    ensures { frame_on no_base result ≡ first_frame None 0 [] }
{
    Activation {
        at: 0,
        call_line: None,
        stack: Vec::new(alloc),
        locals: Vec::new(alloc),
        clauses: ClauseValues {
            when: true,
            last: false,
            wait: false,
            priority: 0,
        },
        turns: None,
        adds_accesses: false,
        adds_ranges: false,
        gathered: nothing_gathered(alloc),
    }
}

/// A function at its beginning, or a creation with the line of its call, with this stack, on which nothing is, and these
/// locals. It takes no memory.
#[inline(always)]
pub(crate) fn beginning(
    alloc: Global,
    call_line: Option<u32>,
    entry: usize,
    stack: Vec<Value>,
    locals: Vec<Value>,
) -> Activation
    requires { stack.items ≡ [] }
    ensures frame { (base : Base) → frame_on base result ≡ first_frame call_line entry locals.items }
    ensures at { result.at ≡ entry }
    ensures stack { result.stack ≡ stack }
    ensures locals { result.locals ≡ locals }
{
    Activation {
        at: entry,
        call_line,
        stack,
        locals,
        clauses: ClauseValues {
            when: true,
            last: false,
            wait: false,
            priority: 0,
        },
        turns: None,
        adds_accesses: false,
        adds_ranges: false,
        gathered: nothing_gathered(alloc),
    }
}

/// A function at its beginning with these values of the locals, or a creation with the line of its call, with
/// room for so many values, and a few more.
pub(crate) fn first_activation(
    alloc: Global,
    call_line: Option<u32>,
    entry: usize,
    locals: &[Value],
    room: usize,
) -> Result<Activation, AllocError>
    ensures { IfOk result (λ a. (base : Base) → frame_on base a ≡ first_frame call_line entry locals.now) }
{
    let stack = Vec::with_capacity(alloc, room.saturating_add(MORE))?;
    let locals = first_locals(alloc, locals)?;
    Ok(beginning(alloc, call_line, entry, stack, locals))
}

/// These values of locals, with room for a few more.
fn first_locals(alloc: Global, locals: &[Value]) -> Result<Vec<Value>, AllocError>
    ensures { IfOk result (λ copy. copy.items ≡ locals.now) }
{
    let mut copy = Vec::with_capacity(alloc, locals.len().saturating_add(MORE))?;
    copy.extend_from_slice(locals)?;
    Ok(copy)
}

/// Makes an activation one that continues this other one, which stays.
pub(crate) fn continue_from(work: &mut Activation, still: &Activation) -> Result<(), AllocError>
    ensures { OnOk result (frame_on (base_in still.now.gathered) work.new ≡ frame_on no_base still.now) }
{
    copy_values(&mut work.stack, still.stack.as_slice())?;
    copy_values(&mut work.locals, still.locals.as_slice())?;
    work.at = still.at;
    work.call_line = still.call_line;
    work.clauses = still.clauses;
    work.turns = still.turns;
    work.adds_accesses = true;
    work.adds_ranges = true;
    work.gathered.accesses.clear();
    work.gathered.ranges.clear();
    Ok(())
}

/// Makes values those of others.
fn copy_values(values: &mut Vec<Value>, others: &[Value]) -> Result<(), AllocError>
    ensures { OnOk result (values.new.items ≡ others.now) }
{
    if values.len() == others.len() {
        values.as_mut_slice().copy_from_slice(others);
        return Ok(());
    }
    values.clear();
    values.extend_from_slice(others)?;
    Ok(())
}
