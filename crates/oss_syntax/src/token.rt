//! Tokens (C11 6.4). A line `#pragma oss` has one more for its beginning and one for its end, so that the
//! grammar sees where it ends.

use crate::{Bytes, Name};

/// What a token is.
#[derive(Drop)]
pub enum TokenKind {
    /// An identifier that is no keyword (C11 6.4.2).
    Name(Name),
    /// A word of the language, also one that is left out of this subset: those of C (C11 6.4.1), and `printf`,
    /// which is a keyword of this language and not of C.
    Keyword(Name),
    /// The value of an integer constant, and whether it is unsigned (C11 6.4.4.1).
    Number(u64, bool),
    /// The bytes that a string literal stands for, its escapes read (C11 6.4.5).
    Text(Bytes),
    /// A punctuator (C11 6.4.6).
    Symbol(Name),
    /// The beginning of a line `#pragma oss`.
    PragmaOss,
    /// The end of such a line.
    PragmaEnd,
    /// Another line that begins with `#` and is not skipped.
    Directive,
}

/// A token, and the line on which it begins, counted from 1.
#[derive(Drop)]
pub struct Token {
    /// Which token it is, with what it stands for.
    pub what: TokenKind,
    /// The line of its first byte.
    pub line: u32,
}
