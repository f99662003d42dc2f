ghost use Rattle.std.specs.Prelude.{◌≡◌, ◌≤◌, IfOk, MatchOption, Some, None};
ghost use Rattle.lps_build.specs.ReadItems.{con_in, cond_in, item_in, million_in, placed_in, positive_in, shift_in, term_from, time_in, time_rel_in, times_in, to_in};

use crate::builts::{built, is_side, side};
use crate::terms::{atom, call, minus};
use lps_grammar::Tok;
use lps_terms::{Atom, Con, Cond, Item, Lit, Term, TimeRel, TimeVar};
use std::alloc::{AllocError, Global};

/// The greatest number that is added to a time.
const MAX_SHIFT: u64 = 1000000;

/// The atom as a side.
fn term_from(atom: Atom) -> Term
    ensures { result ≡ term_from atom }
{
    call(atom.name, atom.args)
}

/// A condition.
pub fn cond<'a>(
    alloc: Global,
    toks: &'a [Tok],
    limit: usize,
) -> Result<Option<(Cond, &'a [Tok])>, AllocError>
    ensures { IfOk result (λ found. MatchOption found (cond_in limit toks.now ≡ None) (λ p. cond_in limit toks.now ≡ Some (p.0, p.1.now))) }
{
    match toks {
        [Tok::Not, rest @ ..] => {
            let Some((atom, rest)) = atom(alloc, rest, limit)? else {
                return Ok(None);
            };
            let negated = true;
            Ok(Some((Cond::Lit(Lit { negated, atom }), rest)))
        }
        [Tok::Name(_), ..] => {
            let Some((atom, rest)) = atom(alloc, toks, limit)? else {
                return Ok(None);
            };
            if !is_side(rest) {
                let negated = false;
                return Ok(Some((Cond::Lit(Lit { negated, atom }), rest)));
            }
            let Some((built, rest)) = side(alloc, term_from(atom), rest, limit)? else {
                return Ok(None);
            };
            Ok(Some((Cond::Built(built), rest)))
        }
        _ => {
            let Some((built, rest)) = built(alloc, toks, limit)? else {
                return Ok(None);
            };
            Ok(Some((Cond::Built(built), rest)))
        }
    }
}

fn time(toks: &[Tok]) -> Option<(TimeVar, &[Tok])>
    ensures { MatchOption result (time_in toks.now ≡ None) (λ p. time_in toks.now ≡ Some (p.0, p.1.now)) }
{
    match toks {
        [Tok::Time(number), rest @ ..] => Some((TimeVar(*number), rest)),
        _ => None,
    }
}

/// `to` and a time.
fn to(toks: &[Tok]) -> Option<(TimeVar, &[Tok])>
    ensures { MatchOption result (to_in toks.now ≡ None) (λ p. to_in toks.now ≡ Some (p.0, p.1.now)) }
{
    match toks {
        [Tok::To, rest @ ..] => time(rest),
        _ => None,
    }
}

/// The two times after `from`.
pub fn times(toks: &[Tok]) -> Option<((TimeVar, TimeVar), &[Tok])>
    ensures { MatchOption result (times_in toks.now ≡ None) (λ p. times_in toks.now ≡ Some (p.0, p.1.now)) }
{
    let (begin, rest) = time(toks)?;
    let (end, rest) = to(rest)?;
    Some(((begin, end), rest))
}

/// The literal at its time, if it has one.
fn placed(lit: Lit, toks: &[Tok]) -> Option<(Item, &[Tok])>
    ensures { MatchOption result (placed_in lit toks.now ≡ None) (λ p. placed_in lit toks.now ≡ Some (p.0, p.1.now)) }
{
    let [Tok::At, rest @ ..] = toks else {
        return Some((Item::Bare(lit), toks));
    };
    let (at, rest) = time(rest)?;
    Some((Item::At(lit, at), rest))
}

/// The atom from a time to a time, or else as a literal.
fn positive(atom: Atom, toks: &[Tok]) -> Option<(Item, &[Tok])>
    ensures { MatchOption result (positive_in atom toks.now ≡ None) (λ p. positive_in atom toks.now ≡ Some (p.0, p.1.now)) }
{
    let [Tok::From, rest @ ..] = toks else {
        let negated = false;
        return placed(Lit { negated, atom }, toks);
    };
    let ((begin, end), rest) = times(rest)?;
    Some((Item::Span(atom, begin, end), rest))
}

/// A relation of two times.
fn time_rel(toks: &[Tok]) -> Option<(TimeRel, &[Tok])>
    ensures { MatchOption result (time_rel_in toks.now ≡ None) (λ p. time_rel_in toks.now ≡ Some (p.0, p.1.now)) }
{
    match toks {
        [Tok::Less, rest @ ..] => Some((TimeRel::Less, rest)),
        [Tok::AtMost, rest @ ..] => Some((TimeRel::AtMost, rest)),
        [Tok::Equal, rest @ ..] => Some((TimeRel::Equal, rest)),
        [Tok::Greater, rest @ ..] => Some((TimeRel::Greater, rest)),
        [Tok::AtLeast, rest @ ..] => Some((TimeRel::AtLeast, rest)),
        _ => None,
    }
}

/// A number, at most a million.
fn million(toks: &[Tok]) -> Option<(u64, &[Tok])>
    ensures { MatchOption result (million_in toks.now ≡ None) (λ p. (million_in toks.now ≡ Some (p.0, p.1.now)) × (p.0 ≤ 1000000)) }
{
    match toks {
        [Tok::Number(n), rest @ ..] if *n <= MAX_SHIFT => Some((*n, rest)),
        _ => None,
    }
}

/// What is added to a time.
fn shift(toks: &[Tok]) -> Option<(i64, &[Tok])>
    ensures { MatchOption result (shift_in toks.now ≡ None) (λ p. shift_in toks.now ≡ Some (p.0, p.1.now)) }
{
    match toks {
        [Tok::Plus, rest @ ..] => {
            let (n, rest) = million(rest)?;
            Some((n as i64, rest))
        }
        [Tok::Minus, rest @ ..] => {
            let (n, rest) = million(rest)?;
            Some((minus(n), rest))
        }
        _ => Some((0, toks)),
    }
}

/// A constraint.
fn con(toks: &[Tok]) -> Option<(Con, &[Tok])>
    ensures { MatchOption result (con_in toks.now ≡ None) (λ p. con_in toks.now ≡ Some (p.0, p.1.now)) }
{
    let (left, rest) = time(toks)?;
    let (rel, rest) = time_rel(rest)?;
    let (right, rest) = time(rest)?;
    let (plus, rest) = shift(rest)?;
    let con = Con {
        left,
        rel,
        right,
        plus,
    };
    Some((con, rest))
}

/// An item.
pub fn item<'a>(
    alloc: Global,
    toks: &'a [Tok],
    limit: usize,
) -> Result<Option<(Item, &'a [Tok])>, AllocError>
    ensures { IfOk result (λ found. MatchOption found (item_in limit toks.now ≡ None) (λ p. item_in limit toks.now ≡ Some (p.0, p.1.now))) }
{
    match toks {
        [Tok::Not, rest @ ..] => {
            let Some((atom, rest)) = atom(alloc, rest, limit)? else {
                return Ok(None);
            };
            let negated = true;
            Ok(placed(Lit { negated, atom }, rest))
        }
        [Tok::Name(_), ..] => {
            let Some((atom, rest)) = atom(alloc, toks, limit)? else {
                return Ok(None);
            };
            if !is_side(rest) {
                return Ok(positive(atom, rest));
            }
            let Some((built, rest)) = side(alloc, term_from(atom), rest, limit)? else {
                return Ok(None);
            };
            Ok(Some((Item::Built(built), rest)))
        }
        [Tok::Time(_), ..] => match con(toks) {
            Some((con, rest)) => Ok(Some((Item::Con(con), rest))),
            None => Ok(None),
        },
        _ => {
            let Some((built, rest)) = built(alloc, toks, limit)? else {
                return Ok(None);
            };
            Ok(Some((Item::Built(built), rest)))
        }
    }
}
