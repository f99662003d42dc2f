ghost use Rattle.std.specs.Prelude.{◌≡◌, IfOk, MatchOption, Some, None};
ghost use Rattle.lps_build.specs.ReadItems.{built_in, compare_in, is_side, rel_in, side_in};

use crate::expressions::expr;
use crate::terms::{leaf, term};
use lps_grammar::Tok;
use lps_terms::{Built, Rel, Term};
use std::alloc::{AllocError, Global};

/// Whether a sign between two sides stands here.
pub fn is_side(toks: &[Tok]) -> bool
    ensures { result ≡ is_side toks.now }
{
    matches!(toks, [Tok::Equal | Tok::Differ, ..])
}

/// The sign and the right side after a left side.
pub fn side<'a>(
    alloc: Global,
    left: Term,
    toks: &'a [Tok],
    limit: usize,
) -> Result<Option<(Built, &'a [Tok])>, AllocError>
    ensures { IfOk result (λ found. MatchOption found (side_in limit left toks.now ≡ None) (λ p. side_in limit left toks.now ≡ Some (p.0, p.1.now))) }
{
    match toks {
        [Tok::Equal, rest @ ..] => {
            let Some((right, rest)) = term(alloc, rest, limit)? else {
                return Ok(None);
            };
            Ok(Some((Built::Same(left, right), rest)))
        }
        [Tok::Differ, rest @ ..] => {
            let Some((right, rest)) = term(alloc, rest, limit)? else {
                return Ok(None);
            };
            Ok(Some((Built::Differ(left, right), rest)))
        }
        _ => Ok(None),
    }
}

/// The relation of two expressions that the token is.
fn rel(tok: &Tok) -> Option<Rel>
    ensures { result ≡ rel_in tok.now }
{
    match tok {
        Tok::Less => Some(Rel::Less),
        Tok::AtMost => Some(Rel::AtMost),
        Tok::Greater => Some(Rel::Greater),
        Tok::AtLeast => Some(Rel::AtLeast),
        _ => None,
    }
}

/// A comparison of two expressions.
fn compare<'a>(
    alloc: Global,
    toks: &'a [Tok],
    limit: usize,
) -> Result<Option<(Built, &'a [Tok])>, AllocError>
    ensures { IfOk result (λ found. MatchOption found (compare_in limit toks.now ≡ None) (λ p. compare_in limit toks.now ≡ Some (p.0, p.1.now))) }
{
    let Some((left, rest)) = expr(alloc, toks, limit)? else {
        return Ok(None);
    };
    let Some((tok, rest)) = rest.split_first() else {
        return Ok(None);
    };
    let Some(rel) = rel(tok) else {
        return Ok(None);
    };
    let Some((right, rest)) = expr(alloc, rest, limit)? else {
        return Ok(None);
    };
    Ok(Some((Built::Compare(rel, left, right), rest)))
}

/// A built-in that begins with no name.
pub fn built<'a>(
    alloc: Global,
    toks: &'a [Tok],
    limit: usize,
) -> Result<Option<(Built, &'a [Tok])>, AllocError>
    ensures { IfOk result (λ found. MatchOption found (built_in limit toks.now ≡ None) (λ p. built_in limit toks.now ≡ Some (p.0, p.1.now))) }
{
    let Some((left, rest)) = leaf(toks) else {
        return compare(alloc, toks, limit);
    };
    if is_side(rest) {
        return side(alloc, left, rest, limit);
    }
    let [Tok::Is, rest @ ..] = rest else {
        return compare(alloc, toks, limit);
    };
    let Some((right, rest)) = expr(alloc, rest, limit)? else {
        return Ok(None);
    };
    Ok(Some((Built::Is(left, right), rest)))
}
