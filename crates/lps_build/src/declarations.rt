ghost use Rattle.std.specs.Prelude.{◌≡◌, ◌≤◌, ℕ, length, IfOk, MatchOption, Some, None};
ghost use Rattle.lps_build.specs.ReadItems.{more_parts_in};
ghost use Rattle.lps_build.specs.ReadStatements.{arity_in, decl_in, declare_in, has_modes, mode_in, moded_in, modes_end, modes_in, number_in, plain_in, word_in};

use crate::lists::{Part, after_comma, parts};
use lps_grammar::Tok;
use lps_terms::{Body, Decl, Kind, Mode, Name};
use sqlite_items::Items;
use std::alloc::{AllocError, Global};

/// The greatest number of arguments.
const MAX_ARITY: u64 = 64;

/// A name.
fn word<'a>(alloc: Global, toks: &'a [Tok]) -> Result<Option<(Name, &'a [Tok])>, AllocError>
    ensures { IfOk result (λ found. MatchOption found (word_in toks.now ≡ None) (λ p. word_in toks.now ≡ Some (p.0, p.1.now))) }
{
    let Some((Tok::Name(word), rest)) = toks.split_first() else {
        return Ok(None);
    };
    let Some(name) = Name::new(alloc, word.bytes())? else {
        return Ok(None);
    };
    Ok(Some((name, rest)))
}

/// A number of arguments.
fn number(toks: &[Tok]) -> Option<(u32, &[Tok])>
    ensures { MatchOption result (number_in toks.now ≡ None) (λ p. number_in toks.now ≡ Some (p.0, p.1.now)) }
{
    match toks {
        [Tok::Number(n), rest @ ..] if *n <= MAX_ARITY => Some((*n as u32, rest)),
        _ => None,
    }
}

/// A number of arguments after a slash.
fn arity(toks: &[Tok]) -> Option<(u32, &[Tok])>
    ensures { MatchOption result (arity_in toks.now ≡ None) (λ p. arity_in toks.now ≡ Some (p.0, p.1.now)) }
{
    match toks {
        [Tok::Slash, rest @ ..] => number(rest),
        _ => None,
    }
}

/// A mode.
fn mode(toks: &[Tok]) -> Option<(Mode, &[Tok])>
    ensures { (d : ℕ) → MatchOption result (mode_in d toks.now ≡ None) (λ p. mode_in d toks.now ≡ Some (p.0, p.1.now)) }
{
    match toks {
        [Tok::Plus, rest @ ..] => Some((Mode::Plus, rest)),
        [Tok::Minus, rest @ ..] => Some((Mode::Minus, rest)),
        [Tok::Star, rest @ ..] => Some((Mode::Star, rest)),
        _ => None,
    }
}

impl Part for Mode {
    ghost part_in = { mode_in };

    fn part<'a>(
        _: Global,
        toks: &'a [Tok],
        _: usize,
    ) -> Result<Option<(Mode, &'a [Tok])>, AllocError> {
        Ok(mode(toks))
    }
}

/// The modes, if there are not too many and their closing parenthesis follows.
fn closed_modes(modes: Items<Mode>, toks: &[Tok]) -> Option<(Items<Mode>, &[Tok])>
    ensures { MatchOption result (modes_end modes toks.now ≡ None) (λ p. (modes_end modes toks.now ≡ Some (p.0, p.1.now)) × (length p.0 ≤ 64)) }
{
    match toks {
        [Tok::Close, rest @ ..] if modes.len() <= 64 => Some((modes, rest)),
        _ => None,
    }
}

/// The modes in parentheses, if there are any.
fn modes<'a>(
    alloc: Global,
    toks: &'a [Tok],
    limit: usize,
) -> Result<Option<(Items<Mode>, &'a [Tok])>, AllocError>
    ensures { IfOk result (λ found. MatchOption found (modes_in limit toks.now ≡ None) (λ p. (modes_in limit toks.now ≡ Some (p.0, p.1.now)) × (length p.0 ≤ 64))) }
{
    let [Tok::Open, rest @ ..] = toks else {
        return Ok(Some((Items::new(alloc), toks)));
    };
    let Some((modes, rest)) = parts::<Mode>(alloc, rest, limit)? else {
        return Ok(None);
    };
    Ok(closed_modes(modes, rest))
}

/// A declaration with an arity.
fn plain<'a>(
    alloc: Global,
    kind: Kind,
    toks: &'a [Tok],
) -> Result<Option<(Decl, &'a [Tok])>, AllocError>
    ensures { IfOk result (λ found. MatchOption found (plain_in kind toks.now ≡ None) (λ p. plain_in kind toks.now ≡ Some (p.0, p.1.now))) }
{
    let Some((name, rest)) = word(alloc, toks)? else {
        return Ok(None);
    };
    let Some((arity, rest)) = arity(rest) else {
        return Ok(None);
    };
    let modes = Items::new(alloc);
    let decl = Decl {
        kind,
        name,
        arity,
        modes,
    };
    Ok(Some((decl, rest)))
}

/// A declaration with modes.
fn moded<'a>(
    alloc: Global,
    kind: Kind,
    toks: &'a [Tok],
    limit: usize,
) -> Result<Option<(Decl, &'a [Tok])>, AllocError>
    ensures { IfOk result (λ found. MatchOption found (moded_in kind limit toks.now ≡ None) (λ p. moded_in kind limit toks.now ≡ Some (p.0, p.1.now))) }
{
    let Some((name, rest)) = word(alloc, toks)? else {
        return Ok(None);
    };
    let Some((modes, rest)) = modes(alloc, rest, limit)? else {
        return Ok(None);
    };
    let arity = modes.len() as u32;
    let decl = Decl {
        kind,
        name,
        arity,
        modes,
    };
    Ok(Some((decl, rest)))
}

fn has_modes(kind: Kind) -> bool
    ensures { result ≡ has_modes kind }
{
    matches!(kind, Kind::Timeless | Kind::Derived | Kind::Macro)
}

/// A declaration of this kind.
fn decl<'a>(
    alloc: Global,
    kind: Kind,
    toks: &'a [Tok],
    limit: usize,
) -> Result<Option<(Decl, &'a [Tok])>, AllocError>
    ensures { IfOk result (λ found. MatchOption found (decl_in kind limit toks.now ≡ None) (λ p. decl_in kind limit toks.now ≡ Some (p.0, p.1.now))) }
{
    if has_modes(kind) {
        return moded(alloc, kind, toks, limit);
    }
    plain(alloc, kind, toks)
}

#[tactic(auto, using(crate::proofs::Steps::parts_end, crate::proofs::Steps::part_missing, crate::proofs::Steps::decl_step))]
/// The declarations before, and those that follow, each after a comma.
fn more_decls<'a>(
    alloc: Global,
    kind: Kind,
    toks: &'a [Tok],
    mut decls: Vec<Decl>,
    limit: usize,
) -> Result<Option<(Items<Decl>, &'a [Tok])>, AllocError>
    ensures { IfOk result (λ found. MatchOption found (more_parts_in (decl_in kind) limit decls.items toks.now ≡ None) (λ p. more_parts_in (decl_in kind) limit decls.items toks.now ≡ Some (p.0, p.1.now))) }
{
    let mut left = toks;
    let mut room = limit;
    while room > 0 {
        let Some(rest) = after_comma(left) else {
            return Ok(Some((Items::from_vec(decls), left)));
        };
        let Some((decl, rest)) = decl(alloc, kind, rest, room - 1)? else {
            return Ok(None);
        };
        decls.push(decl)?;
        left = rest;
        room -= 1;
    }
    Ok(Some((Items::from_vec(decls), left)))
}

/// The declarations of a kind.
pub fn declare<'a>(
    alloc: Global,
    kind: Kind,
    toks: &'a [Tok],
    limit: usize,
) -> Result<Option<(Body, &'a [Tok])>, AllocError>
    ensures { IfOk result (λ found. MatchOption found (declare_in kind limit toks.now ≡ None) (λ p. declare_in kind limit toks.now ≡ Some (p.0, p.1.now))) }
{
    let Some((first, rest)) = decl(alloc, kind, toks, limit)? else {
        return Ok(None);
    };
    let mut decls = Vec::new(alloc);
    decls.push(first)?;
    let Some((decls, rest)) = more_decls(alloc, kind, rest, decls, limit)? else {
        return Ok(None);
    };
    Ok(Some((Body::Declare(decls), rest)))
}
