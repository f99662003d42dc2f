ghost use Rattle.std.specs.Prelude.{◌≡◌, ◌≤◌, All, IfOk, None, length};
ghost use Rattle.lps_terms.specs.declared.lex_refused.LexRefused.{LexRefused};
ghost use Rattle.lps_lex.specs.Lexing.{lexed};
ghost use Rattle.lps_lex.specs.Spans.{IsTokenOf};
ghost use Rattle.lps_syntax.specs.Judging.{IsLineVerdict};
ghost use Rattle.lps_syntax.specs.declared.line_verdict.LineVerdict.TheVariants as verdict;
ghost use Rattle.lps_batches.specs.Lines.{IsLineRead, line_toks};

use crate::ahead::LONGEST_LINE;
use lps_build::build_line;
use lps_grammar::Tok;
use lps_lex::{Lexed, lex};
use lps_model::Batch;
use lps_numbering::plain_toks;
use lps_syntax::{LineVerdict, judge_line};
use lps_terms::{BatchKind, LexRefused};
use std::alloc::{AllocError, Global};

/// The batch that a line spells, without its line feed; or why it spells none: `LineTooLong` where it has more than 65,536
/// bytes, and else for the first token that refuses, `BadLine`, `TooManyEvents` or `TermTooLarge`. The only error is that
/// memory ran out.
pub fn read_line(alloc: Global, line: &[u8]) -> Result<Result<Batch, BatchKind>, AllocError>
    ensures { IfOk result (IsLineRead line.now) }
{
    if line.len() > LONGEST_LINE {
        return Ok(Err(BatchKind::LineTooLong));
    }
    read_short(alloc, line)
}

/// The same for a line that is not too long.
fn read_short(alloc: Global, line: &[u8]) -> Result<Result<Batch, BatchKind>, AllocError>
    requires { length line.now ≤ 65536 }
    ensures { IfOk result (IsLineRead line.now) }
{
    let Lexed { tokens, fault } = lex(alloc, line)?;
    let toks = plain_toks(alloc, line, tokens.as_slice())?;
    match judge_line(alloc, toks.as_slice())? {
        LineVerdict::Accepted => accepted(alloc, line, toks.as_slice(), fault),
        LineVerdict::TooManyEvents(_) => Ok(Err(BatchKind::TooManyEvents)),
        LineVerdict::TooLarge(_) => Ok(Err(BatchKind::TermTooLarge)),
        LineVerdict::Bad(_) => Ok(Err(BatchKind::BadLine)),
        LineVerdict::Incomplete => Ok(Err(BatchKind::BadLine)),
    }
}

/// The batch of tokens that are a line, unless a fault stands behind them.
fn accepted(
    alloc: Global,
    line: &[u8],
    toks: &[Tok],
    fault: Option<LexRefused>,
) -> Result<Result<Batch, BatchKind>, AllocError>
    requires short { length line.now ≤ 65536 }
    requires toks { toks.now ≡ line_toks line.now }
    requires fault { fault ≡ (lexed line.now).fault }
    requires accepted { IsLineVerdict verdict.Accepted toks.now }
    ensures { IfOk result (IsLineRead line.now) }
{
    if fault.is_some() {
        return Ok(Err(BatchKind::BadLine));
    }
    Ok(match build_line(alloc, toks)? {
        Some((number, events)) => Ok(Batch { number, events }),
        None => Err(BatchKind::BadLine),
    })
}
