//! The part of one task.

ghost use Rattle.std.specs.Prelude.{◌≤◌, ℕ, List as Items, length, IfOk};
ghost use Rattle.oss_model.specs.Bodies.{Start};
ghost use Rattle.oss_machine.specs.Frames.{CodeScript};
ghost use Rattle.oss_body.specs.Relation.{IsBody};
ghost use Rattle.oss_segment.specs.Segments.{IsKnown, IsSegment};

use crate::segment::Segment;
use oss_code::Code;
use oss_kept_tasks::BoxedBody;
use oss_ranges::RangeMap;
use std::alloc::{AllocError, Global};

/// The part of a task: the acts of its body, one after the other, over this memory and what they have changed
/// of it themselves. It stops where the body has ended, before a fault, before a tick more than the quota, and
/// before an act that waits and is not the first. Want of memory is the one error, and then the body is given
/// up. Conditions: the body is one, after some answers, of a task of this code; the memory has at most
/// 1,048,576 cells.
pub fn segment_of(
    alloc: Global,
    code: &Code,
    body: BoxedBody,
    memory: &[u64],
    quota: u32,
) -> Result<Segment, AllocError>
    requires known { IsKnown code.now body }
    requires room { length memory.now ≤ 1048576 }
    ensures { IfOk result (λ segment. (start : Start CodeScript) (found : Items ℕ) →
        IsBody code.now start found body → IsSegment code.now start found memory.now quota body segment) }
{
    let mut segment = Segment {
        body,
        writes: RangeMap::new(alloc),
        children: Vec::new(alloc),
        prints: Vec::new(alloc),
        count: 0,
        ticks: 0,
    };
    'acts: loop {
        if !segment.step(alloc, code, memory, quota)? {
            return Ok(segment);
        }
    }
}
