//! One cell as a range, for the calls that take ranges alone.

ghost use Rattle.std.specs.Prelude.{◌≡◌, ◌<◌};
ghost use Rattle.oss_model.specs.Cells.{cell_range};

use oss_syntax::Range;

/// The range of one cell. Condition: it is one of the 1,048,576 cells that a program may have.
pub fn range_of(cell: u32) -> Range
    requires { cell < 1048576 }
    ensures { result ≡ cell_range cell }
{
    Range {
        lo: cell,
        hi: cell + 1,
    }
}
