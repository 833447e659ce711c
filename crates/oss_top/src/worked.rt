//! The reply to a run of a program by workers. There is one for now: the program runs in turns, by the priorities of its tasks.

ghost use Rattle.std.specs.Prelude.{◌≡◌, ◌<◌, ◌++◌, None, true, IfOk};
ghost use Rattle.oss_io.specs.Spans.{shelf_span};
ghost use Rattle.oss_command.specs.Commands.{AreFit, IsFit, meant, runs_by_workers, schedule_of};
ghost use Rattle.oss_report.specs.Runs.{order_text};
ghost use Rattle.oss_top.specs.Forms.{run_reply};
ghost use Rattle.oss_top.specs.Reply.{IsProgramReply, IsRunReply, IsShelfReply};
ghost use Rattle.oss_top.specs.Soaks.{IsSoakReply};
ghost use Rattle.oss_top.specs.Workers.{AreToldOf, IsAsked, IsSingleOf, IsToldByOne};

use crate::found::{Found, found_for};
use crate::reply::Reply;
use crate::run::{add_dump, are_words, reply_to_counted, reply_to_fault};
use crate::waved::MOST_ENTRIES;
use oss_command::{Command, Options};
use oss_io::{Gate, Shelf};
use oss_lower::lower;
use oss_model::{Answer, Point};
use oss_names::Known;
use oss_prior::{SingleRun, single};
use oss_report::{order_lines, who_lines};
use oss_serial::Ran;
use oss_syntax::{Bytes, List, Program};
use oss_word_deps::WordDeps;
use std::alloc::{AllocError, Global};

/// Works out the reply to a command that runs a program by workers, from a shelf. Want of memory is the one error.
pub(crate) fn worked_reply<S: Shelf, G: Gate>(
    alloc: Global,
    command: Command<'_>,
    shelf: &mut S,
    gate: &G,
) -> Result<Reply, AllocError>
    requires fit { IsFit (meant command) }
    requires by_workers { runs_by_workers (meant command) ≡ true }
    ensures { IfOk result (IsShelfReply (meant command.entry) (shelf_span S.held S.faults S.last shelf.old shelf.new)) }
{
    let found = found_for(alloc, command, shelf)?;
    match found {
        Found::Accepted(known) => reply_to_worked(alloc, command, &known, gate),
        Found::Replied(reply) => Ok(reply),
    }
}

/// What such a command tells of a program that breaks no rule.
fn reply_to_worked<G: Gate>(
    alloc: Global,
    command: Command<'_>,
    known: &Known,
    gate: &G,
) -> Result<Reply, AllocError>
    requires fit { IsFit (meant command) }
    requires by_workers { runs_by_workers (meant command) ≡ true }
    ensures { IfOk result (λ reply. IsProgramReply (meant command.entry) known.now reply) }
{
    match command {
        Command::Run(_, options) => reply_to_worked_run(alloc, known, options, gate),
        Command::Soak(asked) => reply_to_worked_soak(alloc, known, asked.options, gate),
        _ => unreachable!(),
    }
}

/// Runs a program that breaks no rule by one worker, and tells which worker began each task and in which order they began, as the options ask.
fn reply_to_worked_run<G: Gate>(
    alloc: Global,
    known: &Known,
    options: Options,
    gate: &G,
) -> Result<Reply, AllocError>
    requires { AreFit options }
    ensures { IfOk result (λ reply. IsRunReply options known.now reply) }
{
    let SingleRun { answer, order, .. } = single_run(alloc, known, options.fuel, gate)?;
    let lines = lines_of(alloc, options, order)?;
    reply_with_lines(alloc, known.program(), options.dump, answer, &lines)
}

/// Runs a generated program by one worker, and counts its tasks.
fn reply_to_worked_soak<G: Gate>(
    alloc: Global,
    known: &Known,
    options: Options,
    gate: &G,
) -> Result<Reply, AllocError>
    ensures { IfOk result (λ reply. IsSoakReply options known.now reply) }
{
    let SingleRun { answer, tasks, .. } = single_run(alloc, known, options.fuel, gate)?;
    reply_to_counted(alloc, Ran { answer, tasks })
}

/// The run of a program by one worker, by its code.
fn single_run<G: Gate>(
    alloc: Global,
    known: &Known,
    fuel: u32,
    gate: &G,
) -> Result<SingleRun, AllocError>
    ensures { IfOk result (λ run. IsSingleOf known.now fuel run.answer run.order run.tasks) }
{
    let code = lower(alloc, known)?;
    are_words(code.first().as_slice());
    let deps = WordDeps::new(alloc, MOST_ENTRIES)?;
    single(alloc, &code, fuel, deps, gate)
}

/// The lines behind the output of a run by one worker, whose tasks began in this order.
fn lines_of(alloc: Global, options: Options, order: List<Point>) -> Result<Bytes, AllocError>
    ensures { IfOk result (AreToldOf options order) }
{
    let told = order_told(alloc, options.order, &order)?;
    let mut lines = who_told(alloc, options.who, order)?;
    lines.extend(told.as_slice())?;
    Ok(lines)
}

/// In which order tasks began, if it is asked for.
fn order_told(alloc: Global, asked: bool, order: &List<Point>) -> Result<Bytes, AllocError>
    ensures { IfOk result (IsAsked asked (λ text. text ≡ order_text order.now)) }
{
    if asked {
        order_lines(alloc, order)
    } else {
        Ok(Bytes::new(alloc))
    }
}

/// That the one worker began each of these tasks, in point order, if it is asked for.
fn who_told(alloc: Global, asked: bool, tasks: List<Point>) -> Result<Bytes, AllocError>
    ensures { IfOk result (IsAsked asked (IsToldByOne tasks)) }
{
    if asked {
        who_sorted(alloc, tasks)
    } else {
        Ok(Bytes::new(alloc))
    }
}

/// That the one worker began each of these tasks, in point order.
fn who_sorted(alloc: Global, tasks: List<Point>) -> Result<Bytes, AllocError>
    ensures { IfOk result (IsToldByOne tasks) }
{
    let mut sorted = tasks.into_vec();
    sorted.sort()?;
    who_lines(alloc, &List::from_vec(sorted), 0)
}

/// The reply to a run that has this answer, with these lines behind the output of one that ends.
fn reply_with_lines(
    alloc: Global,
    program: &Program,
    dump: bool,
    answer: Answer,
    lines: &Bytes,
) -> Result<Reply, AllocError>
    ensures { IfOk result (λ reply. reply ≡ run_reply dump program.now lines.now answer) }
{
    match answer {
        Answer::Done(mut output, cells) => {
            add_dump(alloc, program, dump, &cells, &mut output)?;
            output.extend(lines.as_slice())?;
            Ok(Reply::done(alloc, output))
        }
        Answer::Fault(kind, line, output) => reply_to_fault(alloc, kind, line, output),
    }
}
