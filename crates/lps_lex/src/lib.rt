//! Reads bytes into the tokens of the language, each with its span and line, up to the first fault.
//! It stands on the names and refusals of `lps_terms`, and never knows of the grammar or of what a text means.
//! It carries the theorem that the table of tokens and the rules of reading allow exactly the tokens and the fault that
//! `tokens` and `fault` of `lex` name: the law `tokens_are_those_of_the_table`.
#![tactic(auto)]

mod laws;
mod lex_error;
mod lexed;
mod number;
mod piece;
mod scan;
mod sign;
mod token;
mod token_kind;
mod word;

pub use laws::tokens_are_those_of_the_table;
pub use lex_error::LexError;
pub use lexed::Lexed;
pub use number::number_value;
pub use scan::{lex, tokens};
pub use token::Token;
pub use token_kind::TokenKind;
