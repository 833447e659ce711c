//! The task that an act creates.

ghost use Rattle.std.specs.Prelude.{◌≡◌};
ghost use Rattle.oss_graph.specs.Coming.{coming_by};

use oss_body::Act;

/// Of a task that is created: the number of those that its creator has created before it, the line of the creation, and the
/// instruction with which its body begins.
#[derive(Clone, Copy)]
pub(crate) struct Coming {
    pub(crate) number: u16,
    pub(crate) line: u32,
    pub(crate) entry: u32,
}

/// The task that an act on this line creates, after so many, if it is one that is not included.
pub(crate) fn task_created(act: &Act, line: u32, number: u16) -> Option<Coming>
    ensures { result ≡ coming_by act.now line number }
{
    match act {
        Act::Create { creation, included } => {
            if *included {
                None
            } else {
                Some(Coming {
                    number,
                    line,
                    entry: creation.get().order.entry,
                })
            }
        }
        Act::Tick => None,
        Act::Load(_) => None,
        Act::Store(_, _) => None,
        Act::Fold { .. } => None,
        Act::Await => None,
        Act::Wait => None,
        Act::WaitOn(_) => None,
        Act::Release { .. } => None,
        Act::Print { .. } => None,
        Act::End => None,
        Act::Fault { .. } => None,
    }
}
