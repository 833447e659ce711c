//! Pieces: rectangles of cells of one global.

/// The rows, or the columns, from `first` to `last`, both included.
#[derive(Clone, Copy, Debug, PartialEq)]
pub struct Span {
    pub first: u32,
    pub last: u32,
}

/// The cells of one global in these rows and columns. `global` is its number among the globals in text order,
/// counted from 0. A scalar has one row of one column, and an array of one dimension one row.
#[derive(Clone, Copy, Debug, PartialEq)]
pub struct Piece {
    pub global: usize,
    pub rows: Span,
    pub columns: Span,
}
