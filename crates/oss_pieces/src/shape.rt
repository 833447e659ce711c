//! How a global lies in the cells.

ghost use Rattle.std.specs.Prelude.{◌≤◌, ◌<◌, ◌+◌};

/// A global whose first cell is `start`, and which has so many cells in rows of `width` cells.
#[derive(Clone, Copy)]
pub(crate) struct Shape {
    pub(crate) start: u32,
    pub(crate) cells: u32,
    pub(crate) width: u32,
    pub(crate) ghost within: { start + cells ≤ 1048576 },
    pub(crate) ghost some: { 0 < width },
    pub(crate) ghost small: { width ≤ 1048576 },
}
