//! How a machine goes from one ask to the next: step by step, and by the compact table in one loop.

pub(crate) mod ahead;
pub(crate) mod answers;
pub(crate) mod body;
pub(crate) mod body_in_place;
pub(crate) mod calls;
pub(crate) mod calls_in_place;
pub(crate) mod commit;
pub(crate) mod entry;
pub(crate) mod in_place;
pub(crate) mod resume;
pub(crate) mod returns_in_place;
pub(crate) mod rows;
pub(crate) mod rush;
pub(crate) mod slide;
pub(crate) mod steps;
pub(crate) mod sweep;
