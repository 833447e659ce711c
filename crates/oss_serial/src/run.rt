//! The sequential run of a code.

ghost use Rattle.std.specs.Prelude.{◌≤◌, length, IfOk};
ghost use Rattle.oss_model.specs.Agreement.{Setting};
ghost use Rattle.oss_body.specs.Mains.{code_main};
ghost use Rattle.oss_serial.specs.Runs.{IsRan};
ghost use Rattle.oss_serial.specs.Stages.{IsFirstStage};

use crate::stage::{Stage, Turned};
use oss_body::{main_body, main_is_set};
use oss_code::Code;
use oss_model::Answer;
use oss_syntax::List;
use std::alloc::{AllocError, Global};

/// What a sequential run gives.
#[derive(Drop)]
pub struct Ran {
    /// The output and the cells at its end, or the fault that stopped it with the output before it.
    pub answer: Answer,
    /// How many tasks it had: main and each that was created and not included. The count stays at its greatest value.
    pub tasks: u64,
}

/// Runs a code on one thread: a task runs where it is created, and its creator goes on behind its end (OmpSs-2,
/// execution model). Each task has fuel for so many ticks. The answer and the number of tasks are those of the
/// definition; want of memory is the one other answer. Condition: the code has at most 1,048,576 cells.
pub fn serial(alloc: Global, code: &Code, fuel: u32) -> Result<Ran, AllocError>
    requires { length code.now.first ≤ 1048576 }
    ensures { IfOk result (λ ran. IsRan code.now fuel ran) }
{
    let mut stage = begin(alloc, code, fuel)?;
    'turns: loop {
        stage.rush(code);
        match stage.turn(code)? {
            Turned::On => {}
            Turned::Ended => return Ok(stage.done()),
            Turned::Failed(kind, line) => return Ok(stage.failed(kind, line)),
        }
    }
}

/// The run at its beginning, each task with fuel for so many ticks. Want of memory is the one error. Condition:
/// the code has at most 1,048,576 cells.
pub fn begin(alloc: Global, code: &Code, fuel: u32) -> Result<Stage, AllocError>
    requires { length code.now.first ≤ 1048576 }
    ensures stage { IfOk result (λ stage. IsFirstStage code.now (code_main code.now fuel) code.now.first stage) }
    ensures setting { IfOk result (λ stage. Setting (code_main code.now fuel) code.now.first) }
{
    main_is_set(code, fuel);
    let current = main_body(alloc, code, fuel)?;
    Ok(Stage {
        current,
        above: List::new(alloc),
        cells: Vec::from_slice(alloc, code.first().as_slice())?,
        output: Vec::new(alloc),
        tasks: 1,
    })
}
