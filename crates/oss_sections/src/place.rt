//! The place of an element of an array of two dimensions. Each index is tested in its own dimension, so that
//! none runs over into another row.
ghost use Rattle.std.specs.Prelude.{◌≡◌, ◌*◌, ◌≤◌, Some, None, if◌then◌else◌};
ghost use Rattle.oss_sections.specs.Places.{is_index, place_of};

/// The place of `a[i][j]` in an array of two dimensions, counted from the array's first cell; with no column
/// that of the first cell of row i. `None` where the row, or the column that is written, is outside of its
/// dimension. They are numbers of 64 bits, read as signed. Condition: the array has at most 1,048,576 cells. It
/// takes no memory.
pub fn element_place(rows: u32, columns: u32, row: u64, column: Option<u64>) -> Option<u32>
    requires { rows * columns ≤ 1048576 }
    ensures { result ≡ place_of rows columns row column }
{
    let row = index_in(rows, row)?;
    match column {
        Some(column) => {
            let column = index_in(columns, column)?;
            Some(row * columns + column)
        }
        None => Some(row * columns),
    }
}

/// A number of 64 bits, read as signed, that is the index of one of so many elements.
fn index_in(count: u32, number: u64) -> Option<u32>
    ensures { result ≡ (if is_index count number then Some number else None) }
{
    if number < u64::from(count) {
        Some(number as u32)
    } else {
        None
    }
}
