//! The list of accesses that the cells of a stretch share. It is made for all cells at first, and by copies
//! where a cut divides it.

ghost use Rattle.std.specs.Prelude.{◌≡◌, ◌∷◌, [], false, true, IfOk, OnOk, OnErr};
ghost use Rattle.oss_deps.specs.Columns.{HasRoom, root};
ghost use Rattle.oss_deps.specs.Places.{unmarked};

use crate::frame::{Frame, Mark};
use oss_syntax::Mode;
use std::alloc::{AllocError, Global};

/// The accesses to a stretch of cells that no cut divides, in the order in which their tasks were opened. The
/// first is main's.
#[derive(Drop)]
pub(crate) struct Column {
    /// The first of its cells.
    pub(crate) lo: u32,
    /// The first cell behind them.
    pub(crate) hi: u32,
    /// The first cell is a cut that was asked for.
    pub(crate) asked: bool,
    /// Each access, by its place.
    pub(crate) frames: Vec<Frame>,
    /// How far each access has come, in the same order.
    pub(crate) marks: Vec<Mark>,
}

impl Column {
    /// All cells that a program may have, with main's access alone.
    pub(crate) fn whole(alloc: Global, hi: u32) -> Result<Column, AllocError>
        ensures lo { IfOk result (λ b. b.lo ≡ 0) }
        ensures hi { IfOk result (λ b. b.hi ≡ hi) }
        ensures asked { IfOk result (λ b. b.asked ≡ false) }
        ensures frames { IfOk result (λ b. b.frames.items ≡ root ∷ []) }
        ensures marks { IfOk result (λ b. b.marks.items ≡ unmarked ∷ []) }
    {
        let mut frames = Vec::with_capacity(alloc, 1)?;
        let mut marks = Vec::with_capacity(alloc, 1)?;
        frames.push_reserved(Frame {
            number: 0,
            task: 0,
            up: 0,
            mode: Mode::Write,
            last: None,
            next: None,
        });
        marks.push_reserved(Mark {
            given: false,
            first: None,
        });
        Ok(Column {
            lo: 0,
            hi,
            asked: false,
            frames,
            marks,
        })
    }

    /// A copy for the cells from `lo` on, with room for one more access.
    pub(crate) fn from(&self, alloc: Global, lo: u32) -> Result<Column, AllocError>
        ensures lo { IfOk result (λ b. b.lo ≡ lo) }
        ensures hi { IfOk result (λ b. b.hi ≡ self.now.hi) }
        ensures asked { IfOk result (λ b. b.asked ≡ false) }
        ensures frames { IfOk result (λ b. b.frames.items ≡ self.now.frames.items) }
        ensures marks { IfOk result (λ b. b.marks.items ≡ self.now.marks.items) }
        ensures room { IfOk result (λ b. HasRoom b) }
    {
        let mut frames = Vec::new(alloc);
        let mut marks = Vec::new(alloc);
        frames.extend_from_slice(self.frames.as_slice())?;
        marks.extend_from_slice(self.marks.as_slice())?;
        frames.reserve(1)?;
        marks.reserve(1)?;
        Ok(Column {
            lo,
            hi: self.hi,
            asked: false,
            frames,
            marks,
        })
    }

    /// Makes room for one more access.
    pub(crate) fn reserve(&mut self) -> Result<(), AllocError>
        ensures lo { self.new.lo ≡ self.old.lo }
        ensures hi { self.new.hi ≡ self.old.hi }
        ensures asked { self.new.asked ≡ self.old.asked }
        ensures frames { self.new.frames.items ≡ self.old.frames.items }
        ensures marks { self.new.marks.items ≡ self.old.marks.items }
        ensures room { HasRoom self.old → HasRoom self.new }
        ensures ok { OnOk result (HasRoom self.new) }
    {
        self.frames.reserve(1)?;
        self.marks.reserve(1)
    }
}
