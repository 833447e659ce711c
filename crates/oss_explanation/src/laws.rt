//! Laws about explanations.

ghost use Rattle.oss_explanation.specs.Claims.{OneDeed, OneFailing, OneHeld};

/// What a task asks is told in one way over the globals of a program.
pub fn an_ask_is_told_in_one_way<S>()
    ensures { OneDeed S }
{}

/// The cells of a directive that fail are told in one way.
pub fn what_fails_is_told_in_one_way()
    ensures { OneFailing }
{}

/// What a task has by its clauses is told in one way.
pub fn what_is_held_is_told_in_one_way()
    ensures { OneHeld }
{}
