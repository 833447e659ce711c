//! What a reader of whole programs stands on: the readers of pragmas that go on from a cursor and tell why they stop.

pub use crate::pragmas::{pragma, task_pragma};
