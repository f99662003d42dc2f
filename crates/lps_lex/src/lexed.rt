use crate::token::Token;
use lps_terms::LexRefused;

/// What stands in some bytes: the tokens before the first fault, in order, and the fault if there is one.
#[derive(Debug, Drop)]
pub struct Lexed {
    pub tokens: Vec<Token>,
    pub fault: Option<LexRefused>,
}
