//! Range maps: finite maps from cells that are kept by ranges, so that what a change costs does not depend on
//! how many cells it names.
#![tactic(auto)]

mod flat_map;
mod map;
mod piece;
mod pieces;
mod store;
mod tree;
mod tree_map;

pub use map::RangeMap;
pub use piece::Piece;
pub use pieces::Pieces;
