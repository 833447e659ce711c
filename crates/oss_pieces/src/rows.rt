//! The rows of a global.

ghost use Rattle.std.specs.Prelude.{◌≡◌, ◌≤◌, ◌<◌, ◌+◌, ◌*◌, ◌↔◌, IsTrue};
ghost use Rattle.oss_grammar.specs.Layout.{cells_of};
ghost use Rattle.oss_pieces.specs.Rows.{grid, grid_of, row_begin, row_end};

use crate::shape::Shape;
use oss_syntax::GlobalDef;

impl Shape {
    /// The shape of a global whose first cell is `start`.
    pub(crate) fn of(global: &GlobalDef, start: u32) -> Shape
        requires { start + cells_of global.now.cells ≤ 1048576 }
        ensures { grid result ≡ grid_of global.now start }
    {
        let cells = match global.cells {
            None => 1,
            Some(cells) => cells as u32,
        };
        let width = match global.columns {
            None => cells.max(1),
            Some(columns) => columns.min(u64::from(cells)).max(1) as u32,
        };
        Shape {
            start,
            cells,
            width,
        }
    }

    /// The cell after the last one of the global.
    pub(crate) fn end(self) -> u32
        ensures { result ≡ self.start + self.cells }
    {
        self.start + self.cells
    }

    /// The row of a cell of the global.
    pub(crate) fn row_of(self, cell: u32) -> u32
        requires { self.start ≤ cell }
        ensures from { row_begin (grid self) result ≤ cell }
        ensures to { cell < row_begin (grid self) result + self.width }
    {
        (cell - self.start) / self.width
    }

    /// The first cell of a row, and the cell after its last one. The global has a cell of that row.
    pub(crate) fn row(self, row: u32) -> (u32, u32)
        requires { row * self.width < self.cells }
        ensures begin { result.0 ≡ row_begin (grid self) row }
        ensures end { result.1 ≡ row_end (grid self) row }
    {
        let begin = self.start + row * self.width;
        let end = (begin + self.width).min(self.end());
        (begin, end)
    }

    /// Whether the global has a row after this one, which it has.
    pub(crate) fn has_next(self, row: u32) -> bool
        requires { row * self.width < self.cells }
        ensures { IsTrue result ↔ ((row + 1) * self.width < self.cells) }
    {
        (row + 1) * self.width < self.cells
    }
}
