//! The acts of a task that stand at the end of the longest chain to its last one.

ghost use Rattle.std.specs.Prelude.{◌≡◌, ◌≤◌, ◌<◌, ◌-◌, ◌^◌, ◌++◌, ◌∷◌, [], IfOk, OnErr, OnOk, IfSome, IsSome, length};
ghost use Rattle.oss_span.specs.Acts.{IsSealed, after_act};

use crate::best::{Best, Mark};
use crate::node::Node;
use oss_syntax::List;
use std::alloc::AllocError;

/// A longest chain to the last act of a task, or, where it has done none, to its creation: how many acts the
/// task has done, its ticks, how many acts at its end are the last ones of the task, and the chain before
/// these.
#[derive(Clone, Copy)]
pub(crate) struct Run {
    pub(crate) acts: u64,
    pub(crate) ticks: u64,
    pub(crate) count: u64,
    pub(crate) before: Best,
}

impl Run {
    /// The chain to the next act, which is a tick or none: behind the last one, or behind another event that it
    /// waits for and to which a longer chain leads. `None` where the task has done 18,446,744,073,709,551,615
    /// acts, and not before: at the end of a chain stand no more acts than the task has done.
    pub(crate) fn after(self, other: Best, is_tick: bool) -> Option<Run>
        ensures run { IfSome result (λ run. run ≡ after_act other is_tick self) }
        ensures counted { IfSome result (λ run. self.acts < 2 ^ 64 - 1) }
        ensures fits { self.count ≤ self.acts → self.acts < 2 ^ 64 - 1 → IsSome result }
    {
        let acts = self.acts.checked_add(1)?;
        if self.ticks < other.mark.ticks {
            Some(Run {
                acts,
                ticks: ticked(other.mark.ticks, is_tick),
                count: 1,
                before: other,
            })
        } else {
            Some(Run {
                acts,
                ticks: ticked(self.ticks, is_tick),
                count: self.count.checked_add(1)?,
                before: self.before,
            })
        }
    }

    /// The chain as a node. Out of memory, all is as it was.
    pub(crate) fn seal(&mut self, task: usize, nodes: &mut List<Node>) -> Result<Best, AllocError>
        ensures ok { IfOk result (λ best. IsSealed task self.old self.new nodes.old nodes.new best) }
        ensures run { OnErr result (self.new ≡ self.old) }
        ensures nodes { OnErr result (nodes.new ≡ nodes.old) }
    {
        if self.count == 0 {
            return Ok(Best {
                mark: Mark {
                    ticks: self.ticks,
                    end: self.before.mark.end,
                },
                cell: self.before.cell,
            });
        }
        let best = Best {
            mark: Mark {
                ticks: self.ticks,
                end: Some(nodes.len()),
            },
            cell: 0,
        };
        nodes.push(Node::Acts {
            task,
            end: self.acts,
            count: self.count,
            before: self.before,
        })?;
        self.count = 0;
        self.before = best;
        Ok(best)
    }
}

/// One tick more, or as many. The number stays at its greatest value.
fn ticked(ticks: u64, is_tick: bool) -> u64
    ensures { result ≡ Rattle.oss_span.specs.Acts.ticked is_tick ticks }
{
    if is_tick {
        ticks.saturating_add(1)
    } else {
        ticks
    }
}
