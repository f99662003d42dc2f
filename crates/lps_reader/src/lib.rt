//! Reads the bytes of a text, or gives the first refusal: for their number, for a fault of the bytes, or for a token that does
//! not fit, a variable too many or a symbol too many. It passes on the reader of a stream's batches and the printer of texts.
//!
//! It stands on the lexer, on the numbering and the judge of tokens and on the builder of statements, and never knows how these
//! find their way, nor of files, states or cycles. It carries that exactly the texts of the grammar within the limits are read,
//! each as what it spells, and that all others are refused with the first refusal: the clause of `read_text`, with the laws
//! `texts_are_unique`, `texts_are_not_refused` and `refusals_exclude_each_other`.
#![tactic(auto)]

mod judge;
mod judged_text;
mod laws;
mod read_error;
mod refusal;
mod statements;
mod text;

pub use judged_text::LONGEST_TEXT;
pub use laws::{refusals_exclude_each_other, texts_are_not_refused, texts_are_unique};
pub use lps_batches::{BatchBad, BatchReader, cutting_changes_nothing};
pub use lps_printer::print_text;
pub use read_error::ReadError;
pub use text::read_text;
