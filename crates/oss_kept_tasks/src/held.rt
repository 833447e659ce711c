//! What is kept of a task beside its place in the tree and its entry in the dependency system: its body, and the
//! cells that it still owes.

ghost use Rattle.std.specs.Prelude.{◌≡◌};

use crate::boxed_body::BoxedBody;
use oss_ranges::RangeMap;
use oss_syntax::Op;

/// How a task gives up a cell.
#[derive(Clone, Copy, PartialEq, Eq)]
pub enum Owed {
    /// By a let.
    Let,
    /// By a join of its slot, which was folded with this operator.
    Join(Op),
}

/// What is kept of a task: its body, and how each cell that it has not given up is to be given up. Main has none
/// to give up.
pub struct Held {
    pub body: BoxedBody,
    /// By cells. A cell that is given up has no value here.
    pub owed: RangeMap<Owed>,
}

// By hand, so that who lets one go calls this, and does not take it apart at each exit.
impl Drop for Held {
    fn drop(self) {
        let Held { body, owed } = self;
        drop(body);
        drop(owed);
    }
}

impl Held {
    /// The body, and the cells that are still owed. It takes no memory.
    pub fn into_parts(self) -> (BoxedBody, RangeMap<Owed>)
        ensures body { result.0 ≡ self.body }
        ensures owed { result.1 ≡ self.owed }
    {
        let Held { body, owed } = self;
        (body, owed)
    }
}
