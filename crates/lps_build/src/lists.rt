ghost use Rattle.std.specs.Prelude.{◌≡◌, IfOk, List, MatchOption, Option, Some, None, ℕ};
ghost use Rattle.lps_grammar.specs.declared.tok.Tok.{Tok};
ghost use Rattle.lps_build.specs.ReadTerms.{atom_in};
ghost use Rattle.lps_build.specs.ReadItems.{comma_in, cond_in, item_in, more_parts_in, parts_in};

use crate::items::{cond, item};
use crate::terms::atom;
use lps_grammar::Tok;
use lps_terms::{Atom, Cond, Item};
use sqlite_items::Items;
use std::alloc::{AllocError, Global};

/// A part of which several may stand with a comma between each two.
pub trait Part: Sized + Drop {
    ghost use Rattle.std.specs.Prelude.{List, Option, ℕ};
    ghost use Rattle.lps_grammar.specs.declared.tok.Tok.{Tok};

    /// The part at the front of tokens and the tokens after it, where at most so many are left.
    ghost part_in: { ℕ → List Tok → Option (Self × List Tok) };

    /// The part at the front of tokens and the tokens after it, where at most `limit` are left.
    fn part<'a>(
        alloc: Global,
        toks: &'a [Tok],
        limit: usize,
    ) -> Result<Option<(Self, &'a [Tok])>, AllocError>
        ensures { IfOk result (λ found. MatchOption found (part_in limit toks.now ≡ None) (λ p. part_in limit toks.now ≡ Some (p.0, p.1.now))) };
}

impl Part for Cond {
    ghost part_in = { cond_in };

    fn part<'a>(
        alloc: Global,
        toks: &'a [Tok],
        limit: usize,
    ) -> Result<Option<(Cond, &'a [Tok])>, AllocError> {
        cond(alloc, toks, limit)
    }
}

impl Part for Item {
    ghost part_in = { item_in };

    fn part<'a>(
        alloc: Global,
        toks: &'a [Tok],
        limit: usize,
    ) -> Result<Option<(Item, &'a [Tok])>, AllocError> {
        item(alloc, toks, limit)
    }
}

impl Part for Atom {
    ghost part_in = { atom_in };

    fn part<'a>(
        alloc: Global,
        toks: &'a [Tok],
        limit: usize,
    ) -> Result<Option<(Atom, &'a [Tok])>, AllocError> {
        atom(alloc, toks, limit)
    }
}

/// Parts with a comma between each two.
pub fn parts<'a, T: Part>(
    alloc: Global,
    toks: &'a [Tok],
    limit: usize,
) -> Result<Option<(Items<T>, &'a [Tok])>, AllocError>
    ensures { IfOk result (λ found. MatchOption found (parts_in T.part_in limit toks.now ≡ None) (λ p. parts_in T.part_in limit toks.now ≡ Some (p.0, p.1.now))) }
{
    let Some((first, rest)) = T::part(alloc, toks, limit)? else {
        return Ok(None);
    };
    let mut parts = Vec::new(alloc);
    parts.push(first)?;
    more_parts(alloc, rest, parts, limit)
}

/// The tokens after a comma, if one stands here.
pub(crate) fn after_comma(toks: &[Tok]) -> Option<&[Tok]>
    ensures { MatchOption result (comma_in toks.now ≡ None) (λ rest. comma_in toks.now ≡ Some rest.now) }
{
    match toks {
        [Tok::Comma, rest @ ..] => Some(rest),
        _ => None,
    }
}

#[tactic(auto, using(crate::proofs::Steps::parts_end, crate::proofs::Steps::part_missing, crate::proofs::Steps::part_step))]
/// The parts before, and those that follow, each after a comma.
fn more_parts<'a, T: Part>(
    alloc: Global,
    toks: &'a [Tok],
    mut parts: Vec<T>,
    limit: usize,
) -> Result<Option<(Items<T>, &'a [Tok])>, AllocError>
    ensures { IfOk result (λ found. MatchOption found (more_parts_in T.part_in limit parts.items toks.now ≡ None) (λ p. more_parts_in T.part_in limit parts.items toks.now ≡ Some (p.0, p.1.now))) }
{
    let mut left = toks;
    let mut room = limit;
    while room > 0 {
        let Some(rest) = after_comma(left) else {
            return Ok(Some((Items::from_vec(parts), left)));
        };
        let Some((part, rest)) = T::part(alloc, rest, room - 1)? else {
            return Ok(None);
        };
        parts.push(part)?;
        left = rest;
        room -= 1;
    }
    Ok(Some((Items::from_vec(parts), left)))
}
