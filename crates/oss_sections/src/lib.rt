//! Which cells an array section names once its expressions are evaluated, as ranges, or its fault; and the
//! place of an element of an array of two dimensions.
#![tactic(auto)]

mod adding;
mod base;
mod place;
mod refused;
mod rows;
mod section;
mod stretch;

pub use adding::{add_cell, add_range};
pub use base::{Base, Extent, Part};
pub use place::element_place;
pub use refused::SectionRefused;
pub use section::section_ranges;
