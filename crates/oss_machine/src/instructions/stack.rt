//! Values on the stack of a function.
ghost use Rattle.std.specs.Prelude.{◌≡◌, ◌<◌, ◌^◌, ◌+◌, ◌-◌, ◌∷◌, ◌++◌, [], IfOk, IsOk, OnOk, drop, reverse, take};
ghost use Rattle.oss_meaning.specs.Expressions.{value_at};
ghost use Rattle.oss_machine.specs.Outcomes.{IsMoved};
ghost use Rattle.oss_machine.specs.Steps.{ahead, onward};

use crate::activation::Activation;
use oss_meaning::Value;
use std::alloc::AllocError;

/// The place so many instructions behind the next one, where a number of 64 bits tells it, as it does of each place of a
/// code. It takes no memory, and any other place is told as want of it.
#[inline(always)]
pub(crate) fn place_behind(at: usize, passed: u32) -> Result<usize, AllocError>
    ensures place { IfOk result (λ to. to ≡ at + 1 + passed) }
    ensures fits { at + 1 + passed < 2 ^ 64 → IsOk result }
{
    match at.checked_add(1 + passed as usize) {
        Some(to) => Ok(to),
        None => Err(AllocError),
    }
}

/// The value at a place of the stack, counted from the topmost.
#[inline(always)]
pub(crate) fn value_below(stack: &[Value], depth: usize) -> Value
    ensures { result ≡ value_at (reverse stack.now) depth }
{
    if depth < stack.len() {
        stack[stack.len() - 1 - depth]
    } else {
        Value::Nowhere
    }
}

/// The topmost values of the stack, so many of them, the lowest first.
#[tactic(auto, using(crate::proofs::StackLemmas::taken))]
pub(crate) fn arguments(stack: &[Value], count: usize) -> &[Value]
    ensures { result.now ≡ reverse (take count (reverse stack.now)) }
{
    let (_, last) = stack.split_at(stack.len().saturating_sub(count));
    last
}

/// Takes the topmost values away, so many of them.
#[inline(always)]
#[tactic(auto, using(crate::proofs::StackLemmas::dropped))]
pub(crate) fn lower(stack: &mut Vec<Value>, taken: usize)
    ensures { reverse stack.new.items ≡ drop taken (reverse stack.old.items) }
{
    let left = stack.len().saturating_sub(taken);
    stack.truncate(left);
}

/// Lays one value in the place of the topmost, so many of them.
#[inline(always)]
#[tactic(auto, using(crate::proofs::StackLemmas::laid))]
pub(crate) fn lay(stack: &mut Vec<Value>, taken: usize, value: Value) -> Result<(), AllocError>
    ensures { OnOk result (reverse stack.new.items ≡ value ∷ drop taken (reverse stack.old.items)) }
{
    let left = stack.len().saturating_sub(taken);
    stack.truncate(left);
    push(stack, value)
}

/// Lays one value on top.
#[inline(always)]
fn push(values: &mut Vec<Value>, value: Value) -> Result<(), AllocError>
    ensures { OnOk result (values.new.items ≡ values.old.items ++ value ∷ []) }
{
    if values.len() < values.capacity() {
        values.push_reserved(value);
        Ok(())
    } else {
        push_more(values, value)
    }
}

/// The same where there is no room yet.
#[cold]
#[inline(never)]
fn push_more(values: &mut Vec<Value>, value: Value) -> Result<(), AllocError>
    ensures { OnOk result (values.new.items ≡ values.old.items ++ value ∷ []) }
{
    values.push(value)?;
    Ok(())
}

/// Goes on with one value in the place of the topmost, so many of them.
#[inline(always)]
pub(crate) fn put(frame: &mut Activation, taken: usize, value: Value) -> Result<(), AllocError>
    ensures { IsMoved (λ f. onward (value ∷ drop taken f.stack) f) frame.old frame.new result }
{
    frame.at = place_behind(frame.at, 0)?;
    lay(&mut frame.stack, taken, value)
}

/// Goes on without the topmost values, so many of them. It takes no memory, and succeeds where the place of the next
/// instruction fits.
#[inline(always)]
pub(crate) fn pass(frame: &mut Activation, taken: usize) -> Result<(), AllocError>
    ensures moved { IsMoved (λ f. onward (drop taken f.stack) f) frame.old frame.new result }
    ensures fits { frame.old.at + 1 < 2 ^ 64 → IsOk result }
{
    frame.at = place_behind(frame.at, 0)?;
    lower(&mut frame.stack, taken);
    Ok(())
}

/// A copy of the value below the topmost one is left.
pub(crate) fn copy_under(frame: &mut Activation) -> Result<(), AllocError>
    ensures { IsMoved (λ f. onward (value_at f.stack 1 ∷ value_at f.stack 0 ∷ value_at f.stack 1 ∷
        drop 2 f.stack) f) frame.old frame.new result }
{
    let lower = value_below(frame.stack.as_slice(), 1);
    let upper = value_below(frame.stack.as_slice(), 0);
    lay(&mut frame.stack, 2, lower)?;
    lay(&mut frame.stack, 0, upper)?;
    put(frame, 0, lower)
}

/// The two topmost values change places.
pub(crate) fn swap(frame: &mut Activation) -> Result<(), AllocError>
    ensures { IsMoved (λ f. onward (value_at f.stack 1 ∷ value_at f.stack 0 ∷ drop 2 f.stack) f) frame.old
        frame.new result }
{
    let lower = value_below(frame.stack.as_slice(), 1);
    let upper = value_below(frame.stack.as_slice(), 0);
    lay(&mut frame.stack, 2, upper)?;
    put(frame, 0, lower)
}
