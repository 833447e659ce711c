//! A body as the machine keeps it.

use crate::activation::Activation;

/// How many functions a task may not have open: it fails with so many.
pub(crate) const TOO_MANY: usize = 257;

/// A body as it stands: the function that runs, and those that wait for what they called, the newest last.
pub(crate) struct Still {
    pub callers: Vec<Activation>,
    pub top: Activation,
}

// By hand, so that who lets one go calls this, and does not take it apart at each exit.
impl Drop for Still {
    fn drop(self) {
        let Still { callers, top } = self;
        drop(callers);
        drop(top);
    }
}

/// What has moved since.
pub(crate) struct Run {
    /// How many callers wait as they stood. The function that continues the next of those that stood, or the
    /// one on top, lies in `waiting` if others wait there, and is the one that runs if none does.
    pub live: usize,
    /// The functions that wait above the live callers, the newest last.
    pub waiting: Vec<Activation>,
    /// The function that runs.
    pub work: Activation,
    /// How many functions are open.
    pub open_count: usize,
}

// By hand, so that who lets one go calls this, and does not take it apart at each exit.
impl Drop for Run {
    fn drop(self) {
        let Run {
            live: _,
            waiting,
            work,
            open_count: _,
        } = self;
        drop(waiting);
        drop(work);
    }
}

/// The functions that waited when the machine began to go on in place. It leaves them alone.
#[derive(Clone, Copy)]
pub(crate) struct Floor {
    /// How many of those that have moved wait.
    pub count: usize,
    /// No function waits at all: the lowest one that runs ends the body with its `Return`.
    pub rooted: bool,
}

/// What the run of a machine is for.
#[derive(Clone, Copy)]
pub(crate) enum Reach {
    /// Nothing: the body stands as it stood, and has not looked ahead.
    Unused,
    /// The body has gone on to where the run lies, or begun there, which has not taken the place of what stood.
    Moved,
    /// The body stands as it stood, and has looked ahead to where the run lies.
    Ahead,
}
