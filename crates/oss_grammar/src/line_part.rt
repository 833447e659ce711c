//! The parts of a line of a text: a `#` begins a directive only where no token stands before it on its line (C11 6.10).

/// Where on its line the rest of a text begins, which decides what a `#` and a newline mean there.
#[derive(Clone, Copy)]
pub enum LinePart {
    /// Only blanks and comments stand before it.
    Beginning,
    /// A token of the line stands before it, or a skipped line that gives no token (its newline still stands there).
    Later,
    /// It stands in a line `#pragma oss`.
    Pragma,
}
