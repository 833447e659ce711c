//! A body that stands before its part.

ghost use Rattle.std.specs.Prelude.{◌≡◌, ◌≤◌, ℕ, List as Items, length, IfOk};
ghost use Rattle.oss_model.specs.Bodies.{Start};
ghost use Rattle.oss_machine.specs.Frames.{CodeScript};
ghost use Rattle.oss_body.specs.Relation.{IsBody};
ghost use Rattle.oss_segment.specs.Segments.{IsKnown, IsSegment};

use crate::run::segment_of;
use crate::segment::Segment;
use oss_code::Code;
use oss_kept_tasks::BoxedBody;
use std::alloc::{AllocError, Global};

/// A body that stands before its part of a wave, with its code: it is the body, after some answers, of a task
/// of that code. So it may be handed to a thread, and what it is need not be told again there.
#[derive(Drop)]
pub struct Ready<'a> {
    pub code: &'a Code,
    pub body: BoxedBody,
    pub ghost known: { IsKnown code.now body },
}

impl<'a> Ready<'a> {
    /// The part of the body, as `segment_of` gives it. Condition: the memory has at most 1,048,576 cells.
    pub fn part(self, alloc: Global, memory: &[u64], quota: u32) -> Result<Segment, AllocError>
        requires { length memory.now ≤ 1048576 }
        ensures { IfOk result (λ segment. (start : Start CodeScript) (found : Items ℕ) →
            IsBody self.entry.code.now start found self.entry.body →
            IsSegment self.entry.code.now start found memory.now quota self.entry.body segment) }
    {
        let Ready { code, body, .. } = self;
        segment_of(alloc, code, body, memory, quota)
    }
}
