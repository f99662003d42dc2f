//! What is printed is read back: the canonical text of a text that was read is read as that text, each statement in a line of its own.
//! It stands on the reader and the printer, and never knows of a program that calls them. Between them stand canonical trees,
//! with only the parentheses that the grammar needs, without a sign before 0, and without a 0 that is added to a time; and
//! what is written for the tokens of each, which the lexer reads back one by one.
//! It carries the law `printed_text_is_read_back`, on the laws of canonical trees and of what is written for them.
#![tactic(auto)]

mod canonical_laws;
mod reading_laws;
mod writing_laws;

pub use canonical_laws::{
    canonical_expressions_are_shortest, canonical_trees_mean_the_same, no_count_grows,
    only_light_tokens_go,
};
pub use reading_laws::{
    numbering_depends_on_the_words, printed_text_is_read_back, written_tokens_are_numbered_again,
};
pub use writing_laws::{shown_is_lexed, statements_are_shown, texts_are_shown};
