//! The label that clauses give.

ghost use Rattle.std.specs.Prelude.{◌≡◌, ◌∷◌, [], IfOk};
ghost use Rattle.std.specs.Option.{option_copied};
ghost use Rattle.oss_labels.specs.Labels.{label_in};

use oss_syntax::{Bytes, Clause};
use std::alloc::{AllocError, Global};

/// The label that clauses give, copied.
pub(crate) fn label_of(alloc: Global, clauses: &[Clause]) -> Result<Option<Bytes>, AllocError>
    ensures { IfOk result (λ label. label ≡ label_in clauses.now) }
{
    match text_of(clauses) {
        Some(text) => Ok(Some(Bytes::from_slice(alloc, text.as_slice())?)),
        None => Ok(None),
    }
}

/// The text of the label that clauses give.
fn text_of(clauses: &[Clause]) -> Option<&Bytes>
    ensures { option_copied result ≡ label_in clauses.now }
{
    for clause in clauses {
        if let Some(text) = text_in(clause) {
            return Some(text);
        }
    }
    None
}

/// The text of a label, if the clause is one.
fn text_in(clause: &Clause) -> Option<&Bytes>
    ensures { option_copied result ≡ label_in (clause.now ∷ []) }
{
    match clause {
        Clause::Label(text) => Some(text),
        Clause::Depend(_, _, _, _) => None,
        Clause::If(_) => None,
        Clause::Final(_) => None,
        Clause::Wait => None,
        Clause::Priority(_) => None,
        Clause::Grain(_) => None,
    }
}
