//! Sets of cells, and how a set is told: as pieces of the globals, in the words of a clause.
#![tactic(auto)]

mod cell_set;
mod finding;
mod globals;
mod laws;
mod layout;
mod names;
mod piece;
mod rows;
mod shape;

pub use cell_set::{CELLS, CellSet};
pub use finding::pieces;
pub use globals::Globals;
pub use laws::a_set_has_one_list;
pub use layout::Layout;
pub use names::{add_cell_name, add_cell_name_among, add_pieces, add_pieces_among};
pub use piece::{Piece, Span};
