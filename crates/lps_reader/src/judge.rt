ghost use Rattle.std.specs.Prelude.{ℕ, List, IfOk};
ghost use Rattle.lps_numbering.specs.Numbers.{crowded_of, toks_of};
ghost use Rattle.lps_reader.specs.Judged.{IsNumberingOf};
ghost use Rattle.lps_reader.specs.Refusing.{IsFirstRefusal};

use crate::refusal::first_refusal;
use lps_lex::Token;
use lps_numbering::Numbered;
use lps_syntax::judge_text;
use lps_terms::ReadRefused;
use std::alloc::{AllocError, Global};

/// The first refusal of the tokens of a text that were numbered, in the line of its token, or none where they are a text
/// within its limits. The only error is that memory ran out.
pub fn refusal_of(
    alloc: Global,
    numbered: &Numbered,
    tokens: &[Token],
) -> Result<Option<ReadRefused>, AllocError>
    ensures { IfOk result (λ refusal. (bytes : List ℕ) → IsNumberingOf bytes tokens.now numbered.now → IsFirstRefusal refusal (crowded_of bytes tokens.now) tokens.now (toks_of bytes tokens.now)) }
{
    let verdict = judge_text(alloc, numbered.toks.as_slice())?;
    Ok(first_refusal(verdict, numbered.crowded, tokens))
}
