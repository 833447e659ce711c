//! Numbers of tasks. They have a type of their own, so that no other number is taken for one.

/// The number of a task of a run. Main is 0, and each new task that is not included has the next number.
#[derive(Clone, Copy, Debug, PartialEq, Eq)]
pub struct TaskNo(pub u64);
