ghost use Rattle.std.specs.Prelude.{IfOk};
ghost use Rattle.lps_syntax.specs.Judging.{IsLineVerdict};

use crate::count::{MAX_EVENTS, MAX_SYMBOLS, events_after, symbols_after};
use crate::expected::Expected;
use crate::line_verdict::LineVerdict;
use lps_grammar::Tok;
use std::alloc::{AllocError, Global};

/// What is judged of these tokens as a line of events.
pub fn judge_line(alloc: Global, toks: &[Tok]) -> Result<LineVerdict, AllocError>
    ensures { IfOk result (λ verdict. IsLineVerdict verdict toks.now) }
{
    let mut expected = Expected::line(alloc)?;
    let mut events = 0;
    let mut symbols = 0;
    for (i, tok) in toks.iter().enumerate() {
        match expected.advance(tok)? {
            None => return Ok(LineVerdict::Bad(i)),
            Some(frame) => {
                let begun = events_after(frame, events);
                if begun > MAX_EVENTS {
                    return Ok(LineVerdict::TooManyEvents(i));
                }
                let after = symbols_after(frame, symbols, tok);
                if after > MAX_SYMBOLS {
                    return Ok(LineVerdict::TooLarge(i));
                }
                events = begun;
                symbols = after;
            }
        }
    }
    let whole = expected.ends_line();
    Ok(if whole {
        LineVerdict::Accepted
    } else {
        LineVerdict::Incomplete
    })
}
