//! Array sections once their expressions are evaluated (OmpSs-2, array sections): the base, and what is named of it.
ghost use Rattle.std.specs.Prelude.{◌+◌, ◌<◌, ◌≤◌};
ghost use Rattle.std.specs.Option.{ForSome};

/// The base of a section: a global, and the element of it from which the section counts.
#[derive(Clone, Copy)]
pub struct Base {
    /// The first cell of the global.
    pub start: u32,
    /// How many cells the global has: none where a pointer points nowhere. With those before it they are at
    /// most 1,048,576.
    pub count: u32,
    /// How many cells make a row of an array of two dimensions: at least 1. `None` for every other array, and
    /// for a pointer.
    pub columns: Option<u32>,
    /// The number of the element to which the base points, counted from the first cell of the global, modulo
    /// 2^64. It is 0 for an array.
    pub index: u64,
    pub ghost within: { start + count ≤ 1048576 },
    pub ghost wide: { ForSome columns (λ m. 0 < m) },
}

/// What a section names of one dimension, its expressions evaluated. Its numbers have 64 bits and are read as signed.
#[derive(Clone, Copy)]
pub enum Part {
    /// So many elements, from one on.
    Elements {
        from: u64,
        count: u64,
    },
    /// The elements from one to another, both included. A lower end that is left out is the first element, and
    /// an upper end the last one.
    Span {
        lower: Option<u64>,
        upper: Option<u64>,
    },
}

/// What a section names of its base.
#[derive(Clone, Copy)]
pub enum Extent {
    /// All cells of the global.
    Whole,
    /// A part of the elements; of an array of two dimensions whole rows.
    Part(Part),
    /// A part of the rows, and a part of the columns, of an array of two dimensions.
    Grid(Part, Part),
}
