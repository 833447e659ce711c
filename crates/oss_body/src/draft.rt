//! Drafts of acts.

use crate::act::{Act, Creation};
use oss_judge::Given;
use oss_model::FaultKind;
use oss_syntax::{Access, Boxed, List};

/// An act that is made before it is known whether the judge lets it pass. All that it takes memory for is
/// there, so the judge can be asked behind the last call that may want memory.
#[derive(Drop)]
pub(crate) enum Draft {
    /// An act that is neither a creation nor a release.
    Plain(Act),
    /// A creation, with the rights that its clauses give.
    Creation {
        given: Given,
        creation: Boxed<Creation>,
        included: bool,
    },
    /// A release, with the rights that its clauses name.
    Release {
        given: Given,
        clauses: List<Access>,
        included: bool,
    },
    /// The beginning of a creation that was not passed.
    Begun,
    /// A fault, whatever the judge says.
    Faulty(FaultKind),
}
