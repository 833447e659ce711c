//! Calls of the program over shelves, sinks and gates in memory: what is told where a file cannot be read or an output fails,
//! at the greatest number of cells, and by one worker, and who passes a gate. The tests have a crate of their own, since
//! a crate with tests is proved once without them and once with them.
#![tactic(auto)]

#[cfg(test)]
mod tests;
