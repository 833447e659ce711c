//! What each instruction means: one file a kind, and `act`, which chooses among them.

pub(crate) mod accesses;
pub(crate) mod act;
pub(crate) mod asks;
pub(crate) mod cells;
pub(crate) mod directives;
pub(crate) mod failing;
pub(crate) mod jumps;
pub(crate) mod locals;
pub(crate) mod print;
pub(crate) mod sections;
pub(crate) mod stack;
pub(crate) mod turns;
