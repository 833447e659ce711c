//! What holds of every longest chain: a law, carried by a function that does nothing. A crate above calls the
//! function, and then has the law.

ghost use Rattle.oss_span_laws.specs.Claims.{SpansAgree, SpansAlike};

/// What is told of the ticks and the longest chains of a program is what is told of a code of it.
pub fn spans_alike()
    ensures { SpansAlike }
{}

/// A program has one answer, and its longest chains have one number of ticks, whatever main and the cells are.
pub fn spans_agree<S>()
    ensures { SpansAgree S }
{}
