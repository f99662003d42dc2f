ghost use Rattle.std.specs.Prelude.{IfOk};
ghost use Rattle.lps_syntax.specs.Judging.{IsTextVerdict};

use crate::count::{MAX_SYMBOLS, symbols_after};
use crate::expected::Expected;
use crate::text_verdict::TextVerdict;
use lps_grammar::Tok;
use std::alloc::{AllocError, Global};

/// What is judged of these tokens as a text.
pub fn judge_text(alloc: Global, toks: &[Tok]) -> Result<TextVerdict, AllocError>
    ensures { IfOk result (λ verdict. IsTextVerdict verdict toks.now) }
{
    let mut expected = Expected::text(alloc)?;
    let mut symbols = 0;
    for (i, tok) in toks.iter().enumerate() {
        match expected.advance(tok)? {
            None => return Ok(TextVerdict::Bad(i)),
            Some(frame) => {
                let after = symbols_after(frame, symbols, tok);
                if after > MAX_SYMBOLS {
                    return Ok(TextVerdict::TooLarge(i));
                }
                symbols = after;
            }
        }
    }
    let whole = expected.ends_text();
    Ok(if whole {
        TextVerdict::Accepted
    } else {
        TextVerdict::Incomplete
    })
}
