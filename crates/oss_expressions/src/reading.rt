//! What readers of pragmas and of whole programs stand on: the cursor and why reading stops, the readers of
//! expressions that go on from a cursor, and what single tokens are.

pub use crate::cursor::{Cursor, Named, Unread};
pub use crate::expressions::element;
pub use crate::kinds::{
    Once, TaskKind, access, is_name, is_start, keyword_is, once_is, reduction, symbol_is,
};
pub use crate::limits::{brackets, expression};
pub use crate::refusals::{count_before, refusal};
