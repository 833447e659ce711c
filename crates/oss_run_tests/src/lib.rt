//! What no clause says of the machine, of bodies, of audits, of explanations, of parts, of jobs, of cores, and of runs by waves and by one worker, tried by
//! their public calls over codes that were written by hand. The tests have a crate of their own, since a crate with tests is
//! proved once without them and once with them.
#![tactic(auto)]

#[cfg(test)]
mod audit_tests;
#[cfg(test)]
mod body_tests;
#[cfg(test)]
mod call_tests;
#[cfg(test)]
mod core_tests;
#[cfg(test)]
mod explain_tests;
#[cfg(test)]
mod job_tests;
#[cfg(test)]
mod machine_tests;
#[cfg(test)]
mod part_tests;
#[cfg(test)]
mod rush_tests;
#[cfg(test)]
mod single_tests;
#[cfg(test)]
mod sweep_tests;
#[cfg(test)]
mod waves_tests;
