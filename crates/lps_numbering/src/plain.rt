//! The tokens of a line of events.
ghost use Rattle.std.specs.Prelude.{◌≡◌, All, IfOk};
ghost use Rattle.lps_lex.specs.Spans.{IsTokenOf};
ghost use Rattle.lps_numbering.specs.Plain.{plain_toks};

use crate::names::Names;
use lps_grammar::Tok;
use lps_lex::Token;
use std::alloc::{AllocError, Global};

/// The tokens of some bytes as those of the grammar, each taken by itself: two variables have one number, whatever their
/// names. It is for lines of events, which have no variables. The only error is that memory ran out.
pub fn plain_toks(alloc: Global, bytes: &[u8], tokens: &[Token]) -> Result<Vec<Tok>, AllocError>
    requires { All (IsTokenOf bytes.now) tokens.now }
    ensures { IfOk result (λ toks. toks.items ≡ plain_toks bytes.now tokens.now) }
{
    let mut toks = Vec::new(alloc);
    for token in tokens {
        let tok = Names::new(alloc).tok_of(alloc, token.kind, token.text(bytes))?;
        toks.push(tok)?;
    }
    Ok(toks)
}
