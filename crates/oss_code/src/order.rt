//! What a new task is to run.
use oss_meaning::Value;
use oss_syntax::{Access, List};

/// What a new task is to run, and what the clauses of its creation gave (OmpSs-2, the task directive).
#[derive(Drop)]
pub struct TaskOrder {
    /// The instruction with which its body begins. That of `main` is 0.
    pub entry: u32,
    /// The values of the locals with which it begins, the oldest first.
    pub copies: List<Value>,
    /// What its dependency clauses declare, in text order.
    pub accesses: List<Access>,
    /// The value of the clause `if`: true without one.
    pub when: bool,
    /// The value of the clause `final`: false without one.
    pub last: bool,
    /// Whether the clause `wait` stands.
    pub wait: bool,
    /// The value of the clause `priority`: 0 without one. It orders nothing that the program can see.
    pub priority: i64,
}
