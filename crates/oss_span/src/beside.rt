//! The sequential run of a code, with the pass beside it.

ghost use Rattle.std.specs.Prelude.{◌≡◌, ◌≤◌, length, IfOk, OnOk};
ghost use Rattle.oss_span.specs.Endings.{IsAtBegin, IsEndedBeside, IsFinished, IsFound, answer_at};
ghost use Rattle.oss_span.specs.Passes.{IsBegun, IsFollowed};
ghost use Rattle.oss_span.specs.Spans.{IsSpanRun};

use crate::link::{Link, SpanRun};
use crate::pass::{Pass, begin_pass};
use oss_code::Code;
use oss_model::{Answer, FaultKind};
use oss_serial::{Ran, Stage, Turned, begin};
use oss_syntax::List;
use std::alloc::{AllocError, Global};

/// How a run comes to its end.
#[derive(Clone, Copy)]
enum End {
    /// Main has ended.
    Done,
    /// A fault stopped it, on this line.
    Fault(FaultKind, u32),
}

/// How a run came to its end, its ticks, and a longest chain with its own.
#[derive(Drop)]
struct Longest {
    end: End,
    work: u64,
    span: u64,
    chain: List<Link>,
}

/// Runs a code sequentially, each task with fuel for so many ticks, and tells how parallel it can be at best
/// (OmpSs-2, dependencies of tasks): how many ticks the run has, and a longest chain of its events. An event is
/// an act of a task, or a cell that it gives up; in a chain each waits for the one before it, and none has more
/// ticks. The answer is that of the sequential run; where a fault stops it, both numbers are 0, and the chain
/// is empty. Want of memory is the one other answer, which is given too where a task would do more than
/// 18,446,744,073,709,551,615 acts: those behind them are no events. An act takes a constant time, but for
/// those that look at cells (the first act of a task, a creation, a wait on cells, a release, an end), which
/// take the logarithm of the ranges that the task keeps, for each of these that they meet. What chains are made
/// of is kept to the end: a constant for each of these acts, and for each range that is given up. Condition:
/// the code has at most 1,048,576 cells.
pub fn span(alloc: Global, code: &Code, fuel: u32) -> Result<SpanRun, AllocError>
    requires { length code.now.first ≤ 1048576 }
    ensures { IfOk result (λ run. IsSpanRun code.now fuel run) }
{
    match begin(alloc, code, fuel) {
        Ok(stage) => span_from(alloc, code, fuel, stage),
        Err(error) => Err(error),
    }
}

/// The same, from the first stage of the run on.
fn span_from(alloc: Global, code: &Code, fuel: u32, stage: Stage) -> Result<SpanRun, AllocError>
    requires { IsAtBegin code.now fuel stage }
    ensures { IfOk result (λ run. IsSpanRun code.now fuel run) }
{
    match begin_pass(alloc, &stage.current) {
        Ok(pass) => span_beside(alloc, code, fuel, stage, pass),
        Err(error) => Err(error),
    }
}

/// The same, with the pass before the first act.
fn span_beside(
    alloc: Global,
    code: &Code,
    fuel: u32,
    mut stage: Stage,
    mut pass: Pass,
) -> Result<SpanRun, AllocError>
    requires first { IsAtBegin code.now fuel stage }
    requires begun { IsBegun stage.current pass }
    ensures { IfOk result (λ run. IsSpanRun code.now fuel run) }
{
    let end = follow(code, fuel, &mut stage, &mut pass);
    let found = find_longest(alloc, end, &mut pass);
    finish(stage, found)
}

/// Follows the run to its end.
fn follow(code: &Code, fuel: u32, stage: &mut Stage, pass: &mut Pass) -> Result<End, AllocError>
    requires first { IsAtBegin code.now fuel stage.old }
    requires begun { IsBegun stage.old.current pass.old }
    ensures { IfOk result (λ end. IsEndedBeside code.now fuel stage.new pass.new end) }
{
    'turns: loop {
        pass.act(stage.current.pending())?;
        let depth = stage.above.len();
        match stage.turn(code)? {
            Turned::On => go_on(depth, stage, pass)?,
            Turned::Ended => return Ok(End::Done),
            Turned::Failed(kind, line) => return Ok(End::Fault(kind, line)),
        }
    }
}

/// The act is done, before which so many tasks stood above the one that ran. After want of memory the run is given up.
fn go_on(depth: usize, stage: &Stage, pass: &mut Pass) -> Result<(), AllocError>
    ensures { OnOk result (IsFollowed depth (length stage.now.above) stage.now.current pass.old pass.new) }
{
    let now = stage.above.len();
    if depth < now {
        return pass.down(&stage.current);
    }
    if now < depth {
        return pass.up();
    }
    Ok(())
}

/// What is told where the run has come to this end. After want of memory the run is given up.
fn find_longest(
    alloc: Global,
    end: Result<End, AllocError>,
    pass: &mut Pass,
) -> Result<Longest, AllocError>
    ensures { IfOk result (λ found. IsFound end pass.old found) }
{
    match end {
        Ok(End::Done) => {
            let work = pass.work;
            let (span, chain) = pass.told()?;
            Ok(Longest {
                end: End::Done,
                work,
                span,
                chain,
            })
        }
        Ok(End::Fault(kind, line)) => Ok(Longest {
            end: End::Fault(kind, line),
            work: 0,
            span: 0,
            chain: List::new(alloc),
        }),
        Err(error) => Err(error),
    }
}

/// What a run gives that has come to an end at this stage, with what was found beside it.
fn finish(stage: Stage, found: Result<Longest, AllocError>) -> Result<SpanRun, AllocError>
    ensures { IfOk result (λ run. IsFinished stage found run) }
{
    match found {
        Ok(found) => {
            let Longest {
                end,
                work,
                span,
                chain,
            } = found;
            Ok(SpanRun {
                answer: answer_at(stage, end),
                work,
                span,
                chain,
            })
        }
        Err(error) => Err(error),
    }
}

/// The answer of a run that has come to this end at this stage.
fn answer_at(stage: Stage, end: End) -> Answer
    ensures { result ≡ answer_at stage end }
{
    match end {
        End::Done => answer_of(stage.done()),
        End::Fault(kind, line) => answer_of(stage.failed(kind, line)),
    }
}

/// The answer of a run.
fn answer_of(ran: Ran) -> Answer
    ensures { result ≡ ran.answer }
{
    let Ran { answer, .. } = ran;
    answer
}
