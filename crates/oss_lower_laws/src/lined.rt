//! Instructions with their lines and the depth of the stack at each, and how far they stand from where `break`
//! and `continue` lead.

use oss_code::Instr;

/// An instruction at its place in a code.
#[derive(Drop)]
pub struct Lined {
    pub what: Instr,
    /// The line of the statement to which it belongs, counted from 1.
    pub line: u32,
    /// How many values there are on the stack of its function before it.
    pub depth: u32,
}

/// How far some instructions of a loop's body, or of the body of a function or of a task, begin behind the
/// pieces to which jumps lead.
#[derive(Clone, Copy)]
pub struct Pads {
    /// So many instructions behind the piece of `break`.
    pub stop: u32,
    /// So many instructions behind the piece of `continue`.
    pub again: u32,
}
