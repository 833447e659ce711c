//! Which texts are programs: the definitions of tokens, grammar and static rules, and the string of `printf`.
#![tactic(auto)]

mod format;
mod kinds;
pub mod laws;
mod line_part;

pub use format::{Piece, arguments, conversions, pieces, write_pieces};
pub use kinds::{Around, Named, Nearest, Object, ValueKind, Wanted};
pub use line_part::LinePart;
