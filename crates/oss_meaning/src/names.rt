//! What names and expressions stand for, as far as the text tells it before any run.

use oss_grammar::ValueKind;
use oss_syntax::{Kind, NumKind};

/// What a name stands for at a place of the text (C11 6.2.1): a local by its place among the locals in scope,
/// counted from 0, a global by its number in text order and a function by its number in text order.
#[derive(Clone, Copy)]
pub enum Found {
    /// A local of this type.
    Variable(u32, Kind),
    /// A global that is one number.
    Scalar(u32, NumKind),
    /// A global that is an array of one dimension.
    Array(u32, NumKind),
    /// A global that is an array of two dimensions.
    Grid(u32, NumKind),
    /// A function.
    Function(u32),
    /// Nothing: no such name is in scope.
    Unknown,
}

/// What an expression designates (C11 6.3.2.1).
#[derive(Clone, Copy)]
pub enum Target {
    /// A value alone.
    Nothing,
    /// The local at this place, of this type.
    Local(u32, Kind),
    /// A cell of this type.
    Cell(NumKind),
    /// The array of two dimensions with this number: it stands under an index.
    Grid(u32, NumKind),
    /// One row of it, which may stand under a second index.
    Row(u32, NumKind),
}

/// What the text tells of an expression before any run: the kind of its value, and what it designates.
#[derive(Clone, Copy)]
pub struct Typed {
    pub kind: ValueKind,
    pub target: Target,
}
