//! The reply to a run of a program, by waves or one task after the other.

ghost use Rattle.std.specs.Prelude.{◌≡◌, ◌<◌, ◌++◌, false, IfOk, OnOk};
ghost use Rattle.oss_model.specs.Agreement.{AreWords};
ghost use Rattle.oss_model.specs.Texts.{fault_line as line_of_fault};
ghost use Rattle.oss_command.specs.Commands.{AreFit, is_by_workers};
ghost use Rattle.oss_top.specs.Forms.{answer_reply, dump_behind, fault_reply, soak_reply};
ghost use Rattle.oss_top.specs.Reply.{IsRunReply};
ghost use Rattle.oss_top.specs.Runs.{IsRanBy, IsRanOf};
ghost use Rattle.oss_top.specs.Soaks.{IsSoakReply};

use crate::reply::Reply;
use crate::status::Status;
use crate::texts;
use crate::waved::{Waved, wave_run};
use oss_command::{Options, RunMode};
use oss_io::Gate;
use oss_lower::lower;
use oss_model::{Answer, FaultKind};
use oss_names::Known;
use oss_report::{dump_bytes, fault_line};
use oss_serial::{Ran, serial};
use oss_syntax::{Bytes, Cells, Program};
use std::alloc::{AllocError, Global};
use std::thread::Threads;

/// Runs a program that breaks no rule, in the mode that the options say. Condition: that is not the one by workers.
pub(crate) fn reply_to_run<R: Threads + Sync, G: Gate>(
    rt: &R,
    alloc: Global,
    known: &Known,
    options: Options,
    gate: &G,
) -> Result<Reply, AllocError>
    requires fit { AreFit options }
    requires unwaited { is_by_workers options.mode ≡ false }
    ensures { IfOk result (λ reply. IsRunReply options known.now reply) }
{
    let ran = run_by_mode(rt, alloc, known, options, gate)?;
    reply_to_answer(alloc, known.program(), options.dump, ran.answer)
}

/// Runs a generated program, in the mode that the options say, and counts its tasks. Condition: that is not the one by workers.
pub(crate) fn reply_to_generated<R: Threads + Sync, G: Gate>(
    rt: &R,
    alloc: Global,
    known: &Known,
    options: Options,
    gate: &G,
) -> Result<Reply, AllocError>
    requires fit { AreFit options }
    requires unwaited { is_by_workers options.mode ≡ false }
    ensures { IfOk result (λ reply. IsSoakReply options known.now reply) }
{
    let ran = run_by_mode(rt, alloc, known, options, gate)?;
    reply_to_counted(alloc, ran)
}

/// The run of a program in the mode that the options say, which is not the one by workers.
fn run_by_mode<R: Threads + Sync, G: Gate>(
    rt: &R,
    alloc: Global,
    known: &Known,
    options: Options,
    gate: &G,
) -> Result<Ran, AllocError>
    requires some { 0 < options.workers }
    requires unwaited { is_by_workers options.mode ≡ false }
    ensures { IfOk result (λ ran. IsRanBy known.now options.fuel ran) }
{
    match options.mode {
        RunMode::Serial => serial_run(alloc, known, options.fuel),
        RunMode::Waves => counted_waves(rt, alloc, known, options, gate),
        RunMode::Workers => unreachable!(),
    }
}

/// The sequential run of a program, by its code: one task after the other, each where it is created.
fn serial_run(alloc: Global, known: &Known, fuel: u32) -> Result<Ran, AllocError>
    ensures { IfOk result (λ ran. IsRanOf known.now.items fuel ran) }
{
    let code = lower(alloc, known)?;
    are_words(code.first().as_slice());
    serial(alloc, &code, fuel)
}

/// The answer of the run by waves of a program, and how many tasks it had.
fn counted_waves<R: Threads + Sync, G: Gate>(
    rt: &R,
    alloc: Global,
    known: &Known,
    options: Options,
    gate: &G,
) -> Result<Ran, AllocError>
    requires { 0 < options.workers }
    ensures { IfOk result (λ ran. IsRanBy known.now options.fuel ran) }
{
    let Waved { answer, waves } = wave_run(rt, alloc, known, options, gate)?;
    Ok(Ran {
        answer,
        tasks: waves.tasks,
    })
}

/// A fact alone: a number of 64 bits is one.
pub(crate) fn are_words(cells: &[u64])
    ensures { AreWords cells.now }
{}

/// The reply to a run that has this answer.
pub(crate) fn reply_to_answer(
    alloc: Global,
    program: &Program,
    dump: bool,
    answer: Answer,
) -> Result<Reply, AllocError>
    ensures { IfOk result (λ reply. reply ≡ answer_reply dump program.now answer) }
{
    match answer {
        Answer::Done(mut output, cells) => {
            add_dump(alloc, program, dump, &cells, &mut output)?;
            Ok(Reply::done(alloc, output))
        }
        Answer::Fault(kind, line, output) => reply_to_fault(alloc, kind, line, output),
    }
}

/// The reply to the run of a generated program.
pub(crate) fn reply_to_counted(alloc: Global, ran: Ran) -> Result<Reply, AllocError>
    ensures { IfOk result (λ reply. reply ≡ soak_reply ran.tasks ran.answer) }
{
    let Ran { answer, tasks } = ran;
    match answer {
        Answer::Done(output, _) => {
            let text = texts::counted(alloc, tasks, &output)?;
            Ok(Reply::done(alloc, text))
        }
        Answer::Fault(kind, line, output) => reply_to_fault(alloc, kind, line, output),
    }
}

/// The reply to a fault on this line, with this output.
pub(crate) fn reply_to_fault(
    alloc: Global,
    kind: FaultKind,
    line: u32,
    output: Bytes,
) -> Result<Reply, AllocError>
    ensures { IfOk result (λ reply. reply ≡ fault_reply output (line_of_fault kind line)) }
{
    let told = fault_line(alloc, kind, line)?;
    Ok(Reply::fault(output, told))
}

/// Writes what the globals hold behind an output, where a dump is asked for.
pub(crate) fn add_dump(
    alloc: Global,
    program: &Program,
    dump: bool,
    cells: &Cells,
    output: &mut Bytes,
) -> Result<(), AllocError>
    ensures { OnOk result (output.new ≡ output.old ++ dump_behind dump program.now cells.now) }
{
    if dump {
        let text = dump_bytes(alloc, program, cells)?;
        output.extend(text.as_slice())?;
    }
    Ok(())
}
