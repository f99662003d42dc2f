//! Numbering: the tokens of bytes as those of the grammar, with a number for each variable and each time.
//! It stands on the lexer's tokens, the grammar's and the names of `lps_terms`, and knows neither of phrases nor of what
//! tokens mean.
//! It carries the theorem that in a statement two variables have one number exactly where they are written alike and not
//! `_`: the law `equal_numbers_are_equal_names`.
#![tactic(auto)]

mod fixed;
mod laws;
mod names;
mod numbered;
mod numbering;
mod plain;

pub use laws::{equal_numbers_are_equal_names, fixed_tokens_are_spelled, numbers_lead_to_names};
pub use names::Names;
pub use numbered::Numbered;
pub use numbering::number;
pub use plain::plain_toks;
