//! Where an expression stands.
use crate::names::Names;
use crate::scope::Scope;

/// Where an expression stands: the names that it may use, and the line of its statement.
#[derive(Clone, Copy)]
pub struct Site<'s, 'p> {
    pub names: &'s Names<'p>,
    pub scope: &'s Scope<'p>,
    pub line: u32,
}
