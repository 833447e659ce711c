//! How a run comes to its end, with the explanation of its fault, and what failed.

use oss_explanation::Explained;
use oss_machine::Failure;
use oss_syntax::FaultKind;

/// How a run comes to its end.
#[derive(Drop)]
pub enum Ending {
    /// Main has ended, and there is no fault.
    Done,
    /// A fault of this kind stopped it, on this line, and this explains it.
    Fault(FaultKind, u32, Explained),
}

/// How a run comes to its end, and what failed.
pub struct Finish {
    pub ending: Ending,
    /// What failed, if the fault is a failure of the program's own meaning that has more to tell than its kind.
    pub failure: Option<Failure>,
}

// By hand, so that who lets one go calls this, and does not take it apart at each exit.
impl Drop for Finish {
    fn drop(self) {
        let Finish { ending, failure: _ } = self;
        drop(ending);
    }
}
