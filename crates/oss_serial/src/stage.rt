//! A stage of the sequential run, and how it goes on. Who follows the run act by act calls `Stage::turn` itself.

ghost use Rattle.std.specs.Prelude.{◌≡◌, List as Items, ℕ, true, false, IfOk, OnOk};
ghost use Rattle.oss_model.specs.Agreement.{Setting};
ghost use Rattle.oss_model.specs.Bodies.{Start};
ghost use Rattle.oss_machine.specs.Frames.{CodeScript};
ghost use Rattle.oss_body.specs.Acts.{creates, goes_on};
ghost use Rattle.oss_body.specs.Relation.{IsBody, is_over, pending_of};

use crate::run::Ran;
use crate::turn::{Turn, happen};
use oss_body::Body;
use oss_code::Code;
use oss_model::{Answer, FaultKind};
use oss_syntax::{Bytes, Cells, List};
use std::alloc::AllocError;
use std::mem;

/// The body that runs, those above it, which wait for it, the oldest first, memory, output, and how many tasks
/// there were. The count stays at its greatest value.
#[derive(Drop)]
pub struct Stage {
    pub current: Body,
    pub above: List<Body>,
    pub cells: Vec<u64>,
    pub output: Vec<u8>,
    pub tasks: u64,
}

/// What a turn came to.
#[derive(Clone, Copy)]
pub enum Turned {
    /// The run goes on.
    On,
    /// Main has ended.
    Ended,
    /// A fault stopped the run, on this line.
    Failed(FaultKind, u32),
}

impl Stage {
    ghost use Rattle.oss_model.specs.declared.answer.Answer.TheVariants as answers;
    ghost use Rattle.oss_serial.specs.Rushings.{IsFurther};
    ghost use Rattle.oss_serial.specs.Stages.{IsDown, IsStage, IsTurned, IsUp};

    /// As many ticks, loads and stores of the body that runs as it makes at once: each is a turn, of which nothing is told.
    /// There may be none. Condition: the body has not ended. It takes no memory.
    pub(crate) fn rush(&mut self, code: &Code)
        requires running { is_over self.old.current ≡ false }
        ensures further { (main : Start CodeScript) (first : Items ℕ) → IsStage code.now main first self.old →
            IsFurther code.now main first self.old self.new }
        ensures running { is_over self.new.current ≡ false }
    {
        self.current.rush(code, &mut self.cells, u64::MAX);
    }

    /// One act of the body that runs. An end goes up to the creator, and a creation down to the new task.
    /// Condition: the body has not ended. After want of memory the run is given up.
    pub fn turn(&mut self, code: &Code) -> Result<Turned, AllocError>
        requires running { is_over self.old.current ≡ false }
        ensures { IfOk result (λ turned. (main : Start CodeScript) (first : Items ℕ) → Setting main first →
            (was : IsStage code.now main first self.old) → IsTurned code.now main first self.old was self.new turned) }
    {
        match happen(self.current.pending(), &mut self.cells, &mut self.output)? {
            Turn::Goes(loaded) => {
                self.current.advance(code, loaded)?;
                if self.current.ended() {
                    Ok(self.go_up())
                } else {
                    Ok(Turned::On)
                }
            }
            Turn::Creates => {
                self.go_down(code)?;
                Ok(Turned::On)
            }
            Turn::Stops(kind, line) => Ok(Turned::Failed(kind, line)),
        }
    }

    /// The creator of the body goes on, where there is one.
    fn go_up(&mut self) -> Turned
        ensures { IsUp self.old self.new result }
    {
        match self.above.pop() {
            Some(creator) => {
                self.current = creator;
                Turned::On
            }
            None => Turned::Ended,
        }
    }

    /// The body goes down to the task that its next act creates, and waits for it. After want of memory the run
    /// is given up.
    fn go_down(&mut self, code: &Code) -> Result<(), AllocError>
        requires running { is_over self.old.current ≡ false }
        requires goes { goes_on (pending_of self.old.current) ≡ true }
        requires creates { creates (pending_of self.old.current) ≡ true }
        ensures { OnOk result ((start : Start CodeScript) (found : Items ℕ) →
            IsBody code.now start found self.old.current → IsDown code.now start found self.old self.new) }
    {
        let child = self.current.child(code)?;
        self.current.advance(code, 0)?;
        let creator = mem::replace(&mut self.current, child);
        self.above.push(creator)?;
        self.tasks = self.tasks.saturating_add(1);
        Ok(())
    }

    /// What a run gives that has come to its end.
    pub fn done(self) -> Ran
        ensures answer { result.answer ≡ answers.Done self.output.items self.cells.items }
        ensures tasks { result.tasks ≡ self.tasks }
    {
        let Stage {
            cells,
            output,
            tasks,
            ..
        } = self;
        Ran {
            answer: Answer::Done(Bytes::from_vec(output), Cells::from_vec(cells)),
            tasks,
        }
    }

    /// What a run gives that a fault on this line stopped.
    pub fn failed(self, kind: FaultKind, line: u32) -> Ran
        ensures answer { result.answer ≡ answers.Fault kind line self.output.items }
        ensures tasks { result.tasks ≡ self.tasks }
    {
        let Stage { output, tasks, .. } = self;
        Ran {
            answer: Answer::Fault(kind, line, Bytes::from_vec(output)),
            tasks,
        }
    }
}
