//! What the code of a program is, which lowering writes, and laws of it. Nothing here runs.
#![tactic(auto)]

mod laws;
mod lined;

pub use laws::{
    a_program_has_one_outcome, accepted_places_are_told, accepted_programs_have_one_outcome,
    bounds_are_enough, codes_are_one, codes_are_sound, codes_ask_alike, main_outcomes_alike,
    outcomes_alike, outcomes_are_one, programs_are_lively, programs_have_codes,
    programs_have_one_outcome,
};
pub use lined::{Lined, Pads};
