ghost use Rattle.std.specs.Prelude.{◌≤◌, length, IfOk};
ghost use Rattle.lps_reader.specs.Refusals.{IsReading};

use crate::judge::refusal_of;
use lps_lex::{Lexed, Token, lex};
use lps_numbering::{Numbered, number};
use lps_terms::ReadRefused;
use std::alloc::{AllocError, Global};

/// The most bytes that a text has.
pub const LONGEST_TEXT: usize = 1048576;

/// The tokens of a text, and what was made of them: those for the grammar, and the names of each statement.
#[derive(Drop)]
pub struct NumberedText {
    pub tokens: Vec<Token>,
    pub numbered: Numbered,
}

/// The tokens of the bytes of a text with the names of its statements; or why the bytes are no text within its limits: there
/// are too many of them, or they have a fault, and this is the first, or this is the first refusal of their tokens. The only
/// error is that memory ran out.
pub fn numbered_text(
    alloc: Global,
    bytes: &[u8],
) -> Result<Result<NumberedText, ReadRefused>, AllocError>
    ensures { IfOk result (λ found. IsReading bytes.now found) }
{
    if bytes.len() > LONGEST_TEXT {
        return Ok(Err(ReadRefused::TextTooLong));
    }
    number_short(alloc, bytes)
}

#[tactic(auto, using(crate::proofs::Refusals::refusal_is))]
/// The same for bytes that are not too many.
fn number_short(
    alloc: Global,
    bytes: &[u8],
) -> Result<Result<NumberedText, ReadRefused>, AllocError>
    requires { length bytes.now ≤ 1048576 }
    ensures { IfOk result (λ found. IsReading bytes.now found) }
{
    let Lexed { tokens, fault } = lex(alloc, bytes)?;
    if let Some(fault) = fault {
        return Ok(Err(ReadRefused::Lex(fault)));
    }
    let numbered = number(alloc, bytes, tokens.as_slice())?;
    match refusal_of(alloc, &numbered, tokens.as_slice())? {
        Some(refused) => Ok(Err(refused)),
        None => Ok(Ok(NumberedText { tokens, numbered })),
    }
}
