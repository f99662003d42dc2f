ghost use Rattle.std.specs.Prelude.{◌≡◌, [], length, IfOk, MatchOption, Some, None};
ghost use Rattle.lps_grammar.specs.Lines.{spell_line};
ghost use Rattle.lps_grammar.specs.Lines as gl;
ghost use Rattle.lps_build.specs.Fits.{AreNamed};
ghost use Rattle.lps_build.specs.Meaning.{line_of};
ghost use Rattle.lps_build.specs.ReadLines.{colon_in, cycle_in, events_in, line_end, line_in};

use crate::lists::parts;
use lps_grammar::Tok;
use lps_terms::Atom;
use sqlite_items::Items;
use std::alloc::{AllocError, Global};

/// The number, if its colon follows.
fn colon(number: u64, toks: &[Tok]) -> Option<(u64, &[Tok])>
    ensures { MatchOption result (colon_in number toks.now ≡ None) (λ p. colon_in number toks.now ≡ Some (p.0, p.1.now)) }
{
    match toks {
        [Tok::Colon, rest @ ..] => Some((number, rest)),
        _ => None,
    }
}

/// The number of a line.
fn cycle(toks: &[Tok]) -> Option<(u64, &[Tok])>
    ensures { MatchOption result (cycle_in toks.now ≡ None) (λ p. cycle_in toks.now ≡ Some (p.0, p.1.now)) }
{
    match toks {
        [Tok::Number(number), rest @ ..] => colon(*number, rest),
        _ => None,
    }
}

/// The events, if there are any.
fn events<'a>(
    alloc: Global,
    toks: &'a [Tok],
    limit: usize,
) -> Result<Option<(Items<Atom>, &'a [Tok])>, AllocError>
    ensures { IfOk result (λ found. MatchOption found (events_in limit toks.now ≡ None) (λ p. events_in limit toks.now ≡ Some (p.0, p.1.now))) }
{
    match toks {
        [Tok::Dot, ..] => Ok(Some((Items::new(alloc), toks))),
        _ => parts::<Atom>(alloc, toks, limit),
    }
}

/// The number and the events, if the full stop follows.
fn ended(number: u64, events: Items<Atom>, toks: &[Tok]) -> Option<((u64, Items<Atom>), &[Tok])>
    ensures { MatchOption result (line_end number events toks.now ≡ None) (λ p. line_end number events toks.now ≡ Some (p.0, p.1.now)) }
{
    match toks {
        [Tok::Dot, rest @ ..] => Some(((number, events), rest)),
        _ => None,
    }
}

/// The line at the front of tokens, and the tokens after it.
fn line(alloc: Global, toks: &[Tok]) -> Result<Option<((u64, Items<Atom>), &[Tok])>, AllocError>
    ensures { IfOk result (λ found. MatchOption found (line_in (length toks.now) toks.now ≡ None) (λ p. line_in (length toks.now) toks.now ≡ Some (p.0, p.1.now))) }
{
    let Some((number, rest)) = cycle(toks) else {
        return Ok(None);
    };
    let Some((events, rest)) = events(alloc, rest, toks.len())? else {
        return Ok(None);
    };
    Ok(ended(number, events, rest))
}

/// The number of a line of events, and its events in order.
///
/// Where the tokens are a line and each name among them is one, they are what the line means. Of other tokens nothing is
/// said, and the answer may be none.
pub fn build_line(alloc: Global, toks: &[Tok]) -> Result<Option<(u64, Items<Atom>)>, AllocError>
    ensures { IfOk result (λ found. (x : gl.Line) → toks.now ≡ spell_line x [] → AreNamed toks.now → MatchOption found ⊥ (λ p. (p.0, p.1) ≡ line_of x)) }
{
    let Some((built, _)) = line(alloc, toks)? else {
        return Ok(None);
    };
    Ok(Some(built))
}
