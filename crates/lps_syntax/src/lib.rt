//! Judging tokens: whether they are a text, or a line of events, and else the first of them that refuses.
//! What is expected stands on a stack of phrases, and a table says what each expected phrase does at each token. It stands on
//! the grammar alone, and knows neither of bytes nor of what the tokens mean.
//! It carries the theorem that exactly what the grammar spells is run through, as the clauses of `texts_are_run_through` and
//! `lines_are_run_through`, and that of exact refusals, as the clauses of `judge_text` and `judge_line`.
#![tactic(auto)]

mod count;
mod expected;
mod frame;
mod items;
mod laws;
mod line;
mod line_verdict;
mod lines;
mod moved;
mod statements;
mod table;
mod terms;
mod text;
mod text_verdict;

pub use laws::{
    first_tokens_are_alike, lines_are_run_through, texts_are_run_through,
    verdicts_exclude_each_other,
};
pub use line::judge_line;
pub use line_verdict::LineVerdict;
pub use text::judge_text;
pub use text_verdict::TextVerdict;
