//! The grammar of the language: which tokens spell which text, and which spell which line of events.
//! It stands on nothing, and knows neither of bytes nor of how tokens are judged.
//! It carries no theorem of its own: `IsText` and `IsLine` are what the theorems of the crates above speak of.
#![tactic(auto)]

mod tok;
mod word;

pub use tok::Tok;
pub use word::Word;
