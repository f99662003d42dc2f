//! The report of a run, as bytes: a block for each cycle, and the last line.
//!
//! It stands on the definitions of blocks and on the data that they report, with picks, new goals and closed goals among it,
//! and never knows how a run comes to them or where the bytes go. It carries that what is printed is exactly what the
//! definitions spell: the clauses of `Block::print` and `print_last_line`.
#![tactic(auto)]

mod block;
mod goals;
mod last_line;
mod listed;
mod number;
mod picks;
mod verdicts;

pub use block::Block;
pub use last_line::print_last_line;
