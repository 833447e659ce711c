//! Whole programs, run in ways of which no clause says that they happen. What is expected was worked out by
//! hand, or is the answer of the sequential run.

mod chains;
mod counts;
mod draws;
mod fault_words;
mod labels;
mod layout;
mod looping;
mod lowering;
mod moves;
mod programs;
mod readers;
mod reading;
mod schedules;
mod turns;
mod waves;
mod words;
