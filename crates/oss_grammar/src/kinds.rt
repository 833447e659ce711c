//! What the static rules speak of: the kinds of values, what a place allows, what names and expressions stand
//! for, and what stands around a statement.

use oss_syntax::{Kind, NumKind};

/// The kind of an expression's value.
#[derive(Clone, Copy)]
pub enum ValueKind {
    /// A number that operators read as signed.
    Signed,
    /// A number that operators read as unsigned.
    Unsigned,
    /// A pointer to numbers of this type.
    Pointer(NumKind),
    /// An array of two dimensions of such numbers, which may stand under an index alone.
    Rows(NumKind),
    /// A function without a result was called.
    Nothing,
    /// It breaks a rule, or its kind comes from what breaks one. It breaks no further rule.
    Unknown,
}

/// Which kinds of values are allowed at a place.
#[derive(Clone, Copy)]
pub enum Wanted {
    /// A number, signed or not.
    Number,
    /// A pointer to numbers of any type.
    Pointer,
    /// A number or such a pointer, as on the left of `+`.
    NumberOrPointer,
    /// What an index may stand behind: such a pointer, or an array of two dimensions.
    Indexed,
    /// A pointer to numbers of this very type.
    PointerTo(NumKind),
    /// Nothing is asked of the value.
    Anything,
}

/// What an expression designates.
#[derive(Clone, Copy)]
pub enum Object {
    /// A value alone, which can be neither a target nor the operand of `&`.
    ValueOnly,
    /// A cell of this type: a global scalar, `a[e]`, `a[e][e]`, `p[e]` or `*p`.
    Cell(NumKind),
    /// A local of this type.
    Variable(Kind),
}

/// What a name stands for at a place of the text.
#[derive(Clone, Copy)]
pub enum Named {
    /// The name is not in scope.
    Missing,
    /// A local of this type.
    Local(Kind),
    /// A global that is one number.
    Scalar(NumKind),
    /// A global that is an array of such numbers, of one dimension.
    Array(NumKind),
    /// A global that is an array of such numbers, of two dimensions.
    Grid(NumKind),
    Function,
}

/// The nearest loop around a statement inside the same task body or function.
#[derive(Clone, Copy)]
pub enum Nearest {
    NoLoop,
    /// A `while` or a `for`, which `break` and `continue` may leave.
    Loop,
    /// A task loop, whose turns `continue` may end; no `break` leaves it.
    TaskLoop,
}

/// What stands around a statement.
#[derive(Clone, Copy)]
pub struct Around {
    /// How many locals were in scope where the innermost scope began: those from here on are declared in it.
    pub start: usize,
    /// The type of the function's result.
    pub result: Kind,
    /// The nearest loop around it inside the same task body or function.
    pub nearest: Nearest,
    /// Whether a task statement or a task loop stands around it.
    pub in_task: bool,
}
