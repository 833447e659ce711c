//! What holds of every audit: a law, carried by a function that does nothing. A crate above calls the function,
//! and then has the law.

ghost use Rattle.oss_audit_laws.specs.Claims.{AuditsAlike, AuditsAreOne};

/// The audit of a program tells what that of a code of it tells, and the other way round.
pub fn audits_alike()
    ensures { AuditsAlike }
{}

/// The audit of a program is one: one answer, and one list of unused cells, whatever main and the cells are.
pub fn audits_are_one<S>()
    ensures { AuditsAreOne S }
{}
