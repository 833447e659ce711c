//! The accesses to one cell, hung in lists, and the flags that messages move along the lists: what an access
//! may do, and whether it is done, is told by six flags at the access itself, and nobody looks through the
//! lists.
#![tactic(auto)]

mod access_list;
mod hang;
pub mod laws;
mod marks;
mod queue;

pub use access_list::AccessList;
pub use hang::Hang;
pub use marks::Marks;
