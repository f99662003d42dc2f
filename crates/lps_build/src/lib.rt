//! Builds the syntax of the language from tokens that are known to be a text, or a line of events.
//! It stands on the grammar and on the types of the syntax, and knows neither of bytes nor of why tokens are refused.
//! It carries the theorem that the tokens of a text or a line are read as what it means, the clauses of `build_text` and
//! `build_line`, and those of each part as what the part means, the law `parts_are_read`.
#![tactic(auto)]

mod builts;
mod declarations;
mod expressions;
mod items;
mod laws;
mod line;
mod lists;
mod statements;
mod terms;
mod text;

pub use expressions::expr;
pub use items::{cond, item};
pub use laws::parts_are_read;
pub use line::build_line;
pub use lists::{Part, parts};
pub use terms::{atom, leaf, term};
pub use text::build_text;
