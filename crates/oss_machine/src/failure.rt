//! What failed where the program's own meaning fails: a shift, a pointer, a section, or a number of turns.

/// What a section names of one dimension of a global.
#[derive(Clone, Copy)]
pub enum Stretch {
    /// So many elements, rows or columns: 0 or fewer. `3:1` has -1.
    Few(i128),
    /// The one with this number, counted from 0.
    One(i64),
    /// Those from one number to a greater one, both included.
    Several(i64, i128),
}

/// What is outside of a global.
#[derive(Clone, Copy)]
pub enum Miss {
    /// The place to which a pointer points, counted from the first cell of the global.
    Place(i64),
    /// A row of an array of two dimensions.
    Row(i64),
    /// An element of an array of two dimensions, by its row and its column.
    Element(i64, i64),
    /// A section of elements, counted from the first cell of the global.
    Elements(Stretch),
    /// A section of whole rows of an array of two dimensions.
    Rows(Stretch),
    /// A section of rows and of columns of an array of two dimensions.
    Grid(Stretch, Stretch),
}

/// What failed.
#[derive(Clone, Copy)]
pub enum Failure {
    /// A shift by this number, read as signed.
    Shift(i64),
    /// A multidependency of so many turns, read as signed.
    Turns(i64),
    /// A place by a pointer that points to no global.
    Nowhere,
    /// A section by a pointer that points to no global.
    NoSection,
    /// What is outside of the global with this number, in text order and counted from 0.
    Outside(u32, Miss),
}
