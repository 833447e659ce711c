//! What a field leaves that was taken apart tells a state of the machine of tasks, which a run can reach: a law, carried by a
//! function that does nothing.
#![tactic(auto)]

mod laws;

pub use laws::fields_apart_tell;
