//! Values. A pointer is a global with an index and no address, so that it means the same wherever the cells of
//! the global lie.

/// A value of an expression, a local or a parameter.
#[derive(Clone, Copy, PartialEq, Eq)]
pub enum Value {
    /// A number of 64 bits. What reads it tells whether it is signed.
    Num(u64),
    /// A pointer (C11 6.3.2.3, 6.5.6): the number of a global in text order, counted from 0, and an index,
    /// counted from the first cell of the global. The index may lie outside of the global; then each touch
    /// through the pointer is a fault.
    Place(u32, i64),
    /// A pointer that points to no global. Each touch through it is a fault.
    Nowhere,
}
