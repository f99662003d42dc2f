//! Prints the canonical text of a program text.
//!
//! It stands on the data of texts alone, and never knows of bytes that are read or of what a text means. It carries the
//! clause of `print_text`: the bytes are the canonical text, statement by statement.
#![tactic(auto)]

mod expressions;
mod items;
mod statements;
mod terms;

pub use statements::print_text;
