ghost use Rattle.std.specs.Prelude.{◌≡◌, [], length, IfOk, MatchOption, Some, None};
ghost use Rattle.lps_grammar.specs.Statements.{spell_text};
ghost use Rattle.lps_grammar.specs.Statements as gs;
ghost use Rattle.lps_build.specs.Fits.{AreNamed};
ghost use Rattle.lps_build.specs.Meaning.{bodies_of};
ghost use Rattle.lps_build.specs.ReadStatements.{text_in};

use crate::statements::statement;
use lps_grammar::Tok;
use lps_terms::Body;
use std::alloc::{AllocError, Global};

#[tactic(auto, using(crate::proofs::Steps::text_ends, crate::proofs::Steps::statement_missing))]
/// The statements at the front of tokens, each with the place of its first token, and the tokens after them.
fn bodies(alloc: Global, toks: &[Tok]) -> Result<Option<(Vec<(usize, Body)>, &[Tok])>, AllocError>
    ensures { IfOk result (λ found. MatchOption found (text_in (length toks.now) (length toks.now) [] toks.now ≡ None) (λ p. text_in (length toks.now) (length toks.now) [] toks.now ≡ Some (p.0.items, p.1.now))) }
{
    let mut before = Vec::new(alloc);
    let mut left = toks;
    let mut room = toks.len();
    while room > 0 {
        if left.is_empty() {
            return Ok(Some((before, left)));
        }
        let Some((body, rest)) = statement(alloc, left, room)? else {
            return Ok(None);
        };
        before.push((toks.len().saturating_sub(left.len()), body))?;
        left = rest;
        room -= 1;
    }
    Ok(Some((before, left)))
}

/// The statements of a text, in order, each with the place of its first token, counted from 0.
///
/// Where the tokens are a text and each name among them is one, they are what the text means. Of other tokens nothing is
/// said, and the answer may be none.
pub fn build_text(alloc: Global, toks: &[Tok]) -> Result<Option<Vec<(usize, Body)>>, AllocError>
    ensures { IfOk result (λ found. (x : gs.Text) → toks.now ≡ spell_text x [] → AreNamed toks.now → MatchOption found ⊥ (λ bodies. bodies.items ≡ bodies_of (length toks.now) x)) }
{
    let Some((bodies, _)) = bodies(alloc, toks)? else {
        return Ok(None);
    };
    Ok(Some(bodies))
}
