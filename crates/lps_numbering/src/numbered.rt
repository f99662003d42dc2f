use crate::names::Names;
use lps_grammar::Tok;

/// Tokens for the grammar, and what their numbers stand for: of all tokens, or of those up to and with the crowded one.
#[derive(Drop)]
pub struct Numbered {
    pub toks: Vec<Tok>,
    /// The names of each statement, which ends at its full stop, and last those of what follows the last full stop.
    pub statements: Vec<Names>,
    /// The first token that is a 256th different variable or time of its statement, counted from 0.
    pub crowded: Option<usize>,
}
