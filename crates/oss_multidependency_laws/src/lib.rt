//! Unrolling: a multidependency whose first value and number of turns are literals means the sections of its turns.
#![tactic(auto)]

mod laws;

pub use laws::{
    groupings_have_one_outcome, spelled_means_the_same, unrolled_clauses_mean_the_same,
    unrolled_programs_have_one_outcome, unrolled_sections_mean_the_same,
    unrolled_texts_have_one_outcome,
};
