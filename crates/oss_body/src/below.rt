//! The tasks of a body below the one that acts.
ghost use Rattle.std.specs.Prelude.{◌≡◌, ◌∷◌, ◌++◌, [], List, MatchOption, OnErr, OnOk, length, slice_get, option_copied};
ghost use Rattle.oss_body.specs.Places.{Framed};

use crate::frame::Frame;
use std::alloc::{AllocError, Global};
use std::marker::Model;
use std::mem;

/// The tasks that wait for those that they include, the body's own first.
#[derive(Drop)]
pub(crate) struct Below {
    frames: Vec<Frame>,
}

impl Model for Below {
    ghost use Rattle.std.specs.Prelude.{List};
    ghost use Rattle.oss_body.specs.Places.{Framed};

    ghost Value = { List Framed };

    ghost view = { λ b. b.frames.items };
}

impl Below {
    /// No task.
    pub(crate) fn new(alloc: Global) -> Below
        ensures { result ≡ [] }
    {
        Below {
            frames: Vec::new(alloc),
        }
    }

    /// One more task waits. Where memory is wanting all stay, and it is gone.
    pub(crate) fn push(&mut self, frame: Frame) -> Result<(), AllocError>
        ensures ok { OnOk result (self.new ≡ self.old ++ frame ∷ []) }
        ensures err { OnErr result (self.new ≡ self.old) }
    {
        self.frames.push(frame)?;
        Ok(())
    }

    /// Takes the newest one.
    pub(crate) fn pop(&mut self) -> Option<Frame>
        ensures { MatchOption result ((self.old ≡ []) × (self.new ≡ [])) (λ last. self.old ≡ self.new ++ last ∷ []) }
    {
        self.frames.pop()
    }

    /// The newest one and another change places, where there is one. It takes no memory.
    pub(crate) fn exchange(&mut self, other: &mut Frame)
        ensures { (rest : List Framed) (last : Framed) → self.old ≡ rest ++ last ∷ [] →
            (self.new ≡ rest ++ other.old ∷ []) × (other.new ≡ last) }
    {
        match self.frames.pop() {
            Some(last) => {
                let other = mem::replace(other, last);
                self.frames.push_reserved(other);
            }
            None => {}
        }
    }

    /// How many there are.
    pub(crate) fn len(&self) -> usize
        ensures { result ≡ length self.now }
    {
        self.frames.len()
    }

    /// The body's own task; `None` where it acts itself.
    pub(crate) fn own(&self) -> Option<&Frame>
        ensures { option_copied result ≡ slice_get self.now 0 }
    {
        self.frames.get(0)
    }
}
