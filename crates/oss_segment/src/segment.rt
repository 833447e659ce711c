//! What a task has done in its part of a wave, act by act.

ghost use Rattle.std.specs.Prelude.{◌≡◌, ◌≤◌, ◌<◌, ℕ, List as Items, true, length, IfOk};
ghost use Rattle.oss_model.specs.Bodies.{Start};
ghost use Rattle.oss_machine.specs.Frames.{CodeScript};
ghost use Rattle.oss_body.specs.declared.body.Body.{Body as Kept};
ghost use Rattle.oss_body.specs.Relation.{IsBody};

use crate::going::{may_go, ticks_with};
use crate::happening::happen;
use crate::making::{add_child, add_print};
use oss_code::Code;
use oss_kept_tasks::BoxedBody;
use oss_ranges::RangeMap;
use oss_tree::Print;
use std::alloc::{AllocError, Global};

/// What a task has done in its part of a wave.
#[derive(Drop)]
pub struct Segment {
    /// The body behind the acts of the part.
    pub body: BoxedBody,
    /// The cells that the acts changed, with their values.
    pub writes: RangeMap<u64>,
    /// The bodies, at their start, of the tasks that the acts created, in order. Those that are included are
    /// none of them.
    pub children: Vec<BoxedBody>,
    /// What the acts printed, in order, each print with its key.
    pub prints: Vec<Print>,
    /// How many acts the part has. The count stays at its greatest value.
    pub count: u64,
    pub(crate) ticks: u32,
}

impl Segment {
    ghost use Rattle.oss_body.specs.Left.{body_left};
    ghost use Rattle.oss_segment.specs.Segments.{HasCome, HasStepped};

    /// One more act, unless the part stops before it. Says whether there was one. After want of memory the part
    /// is given up. Condition: the memory has at most 1,048,576 cells.
    pub(crate) fn step(
        &mut self,
        alloc: Global,
        code: &Code,
        memory: &[u64],
        quota: u32,
    ) -> Result<bool, AllocError>
        requires { length memory.now ≤ 1048576 }
        ensures part { IfOk result (λ went. (start : Start CodeScript) (found : Items ℕ) (first : Kept)
            (acts : ℕ) → HasCome code.now start found memory.now quota first acts self.old →
            HasStepped went code.now start found memory.now quota first acts self.new) }
        ensures less { IfOk result (λ went. (start : Start CodeScript) (found : Items ℕ) →
            IsBody code.now start found self.old.body → went ≡ true →
            body_left code.now self.new.body < body_left code.now self.old.body) }
    {
        if self.body.ended() {
            return Ok(false);
        }
        let act = self.body.pending();
        if !may_go(act, self.count, self.ticks, quota) {
            return Ok(false);
        }
        let ticks = ticks_with(act, self.ticks, quota);
        let found = happen(&mut self.writes, memory, act)?;
        add_print(alloc, act, &mut self.prints)?;
        add_child(&self.body, code, &mut self.children)?;
        self.body.advance(code, found)?;
        self.ticks = ticks;
        self.count = self.count.saturating_add(1);
        Ok(true)
    }
}
