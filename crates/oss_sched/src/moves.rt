//! The moves that the lines of a schedule ask for, and what a run by waves did, of which a trace is made.

use oss_model::Point;
use oss_syntax::List;

/// A move of a schedule: what one line of it asks of a task.
#[derive(Drop)]
pub enum TextMove {
    /// The task with this point does so many acts of its body: 1 to 18,446,744,073,709,551,615.
    Step(Point, u64),
    /// The task gives up cells, in rising order: the first one, 0 to 1,048,575, and how many, 1 to 1,048,576.
    Let(Point, u32, u32),
    /// The task's private slots are joined to cells, in rising order: the first one, 0 to 1,048,575, and how many, 1 to
    /// 1,048,576.
    Join(Point, u32, u32),
}

/// What a run by waves did.
#[derive(Drop)]
pub struct WaveRecord {
    /// The moves of each wave, in the order in which they were made.
    pub waves: List<List<TextMove>>,
    /// How many tasks the machine had, main among them.
    pub tasks: u64,
    /// The most tasks that stepped in one wave.
    pub widest: u64,
}
