//! What no clause says of the crates below the parser and the runs, tried by their public calls: that each
//! answers where there is memory, printed texts, and answers that were worked out by hand. The tests have a
//! crate of their own, since a crate with tests is proved once without them and once with them.
#![tactic(auto)]

#[cfg(test)]
mod access_lists_tests;
#[cfg(test)]
mod code_tests;
#[cfg(test)]
mod crew_tests;
#[cfg(test)]
mod gen_tests;
#[cfg(test)]
mod judge_tests;
#[cfg(test)]
mod model_tests;
#[cfg(test)]
mod needs_tests;
#[cfg(test)]
mod pieces_tests;
#[cfg(test)]
mod ranges_tests;
#[cfg(test)]
mod retire_tests;
#[cfg(test)]
mod sched_tests;
#[cfg(test)]
mod sections_tests;
#[cfg(test)]
mod slots_tests;
#[cfg(test)]
mod task_needs_tests;
#[cfg(test)]
mod thread_groups_tests;
#[cfg(test)]
mod tree_tests;
#[cfg(test)]
mod values_tests;
#[cfg(test)]
mod word_net_tests;
