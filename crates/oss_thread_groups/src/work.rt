//! What a caller says of its jobs: how one is done, and which answers are right.

ghost use Rattle.std.specs.Prelude.{IfOk};

use std::alloc::AllocError;

/// What is done with each job. All workers share it.
pub trait Work<J, X> {
    /// The answer may be made of the job. Which worker does the job is no part of it.
    ghost gives: { Self → J → X → Type 0 };

    /// Does one job as this worker. Want of memory is the one error.
    fn run(&self, worker: u32, job: J) -> Result<X, AllocError>
        ensures { IfOk result (λ done. gives self.now job done) };
}
