//! What no clause says of held states, tried by their public calls over a code that was written by hand. The tests have a crate of
//! their own, since a crate with tests is proved once without them and once with them.
#![tactic(auto)]

#[cfg(test)]
mod held_tests;
