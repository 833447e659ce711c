//! What the clauses of the tasks of a run lack, tried by public calls: worked examples of the definitions. The tests have a crate of
//! their own, since a crate with tests is proved once without them and once with them.
#![tactic(auto)]

#[cfg(test)]
mod open_needs_tests;
