ghost use Rattle.lps_reader.specs.Refusals.{IsNumberedText};
ghost use Rattle.lps_reader.specs.Texts.{IsReadOf};

use crate::judged_text::{NumberedText, numbered_text};
use crate::read_error::ReadError;
use crate::statements::{lines_of, statements};
use lps_build::build_text;
use lps_numbering::Numbered;
use lps_terms::Text;
use std::alloc::Global;

/// Reads the bytes of a text: its statements in order, each with the line of its first token, counted from 1, and the written
/// names of its variables and times by number.
///
/// `Refused` comes exactly where the bytes are no text within the limits, with the first refusal: more than 1,048,576 bytes; or
/// else the first place at which no token begins or one is too large; or else the earliest token up to which no text begins,
/// which is a 256th different variable or time of its statement, or a 1,025th symbol of an atom, a side or an expression.
pub fn read_text(alloc: Global, bytes: &[u8]) -> Result<Text, ReadError>
    ensures { IsReadOf bytes.now result }
{
    match numbered_text(alloc, bytes)? {
        Ok(text) => built(alloc, bytes, text),
        Err(refused) => Err(ReadError::Refused(refused)),
    }
}

/// The text of tokens that are one.
fn built(alloc: Global, bytes: &[u8], found: NumberedText) -> Result<Text, ReadError>
    requires { IsNumberedText bytes.now found }
    ensures { IsReadOf bytes.now result }
{
    // Tokens take much room, so each of the two lists goes as soon as it was used.
    let NumberedText { tokens, numbered } = found;
    let lines = lines_of(alloc, tokens.as_slice())?;
    drop(tokens);
    let Numbered {
        toks,
        statements: names,
        crowded: _,
    } = numbered;
    let Some(bodies) = build_text(alloc, toks.as_slice())? else {
        unreachable!()
    };
    drop(toks);
    let statements = statements(alloc, lines.as_slice(), names, bodies)?;
    Ok(Text { statements })
}
