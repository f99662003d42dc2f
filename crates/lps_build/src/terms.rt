ghost use Rattle.std.specs.Prelude.{◌≡◌, ◌≤◌, ◌++◌, [], ◌∷◌, IfOk, MatchOption, Some, None};
ghost use Rattle.lps_build.specs.Meaning.{call_of, minus};
ghost use Rattle.lps_build.specs.ReadTerms.{args_in, atom_in, leaf_in, more_in, negative_in, term_in, then_in};

use lps_grammar::{Tok, Word};
use lps_terms::{Args, Atom, Name, Term};
use sqlite_items::Items;
use std::alloc::{AllocError, Global};

/// One more than the greatest integer.
const INTEGERS: u64 = 9223372036854775808;

/// The number with a minus sign before it.
pub fn minus(n: u64) -> i64
    requires { n ≤ 9223372036854775808 }
    ensures { result ≡ minus n }
{
    if n == 0 { 0 } else { -((n - 1) as i64) - 1 }
}

/// The integer after a minus sign.
fn negative(toks: &[Tok]) -> Option<(Term, &[Tok])>
    ensures { MatchOption result (negative_in toks.now ≡ None) (λ p. negative_in toks.now ≡ Some (p.0, p.1.now)) }
{
    match toks {
        [Tok::Number(n), rest @ ..] if *n <= INTEGERS => Some((Term::Int(minus(*n)), rest)),
        _ => None,
    }
}

/// A variable or an integer.
pub fn leaf(toks: &[Tok]) -> Option<(Term, &[Tok])>
    ensures { MatchOption result (leaf_in toks.now ≡ None) (λ p. leaf_in toks.now ≡ Some (p.0, p.1.now)) }
{
    match toks {
        [Tok::Variable(v), rest @ ..] => Some((Term::Var(*v), rest)),
        [Tok::Number(n), rest @ ..] if *n < INTEGERS => Some((Term::Int(*n as i64), rest)),
        [Tok::Minus, rest @ ..] => negative(rest),
        _ => None,
    }
}

/// A constant, or a function with its arguments.
pub fn call(name: Name, args: Args) -> Term
    ensures { result ≡ call_of name args }
{
    if args.is_empty() {
        Term::Sym(name)
    } else {
        Term::App(name, args)
    }
}

/// A term, where at most `limit` tokens are left.
#[cycle(terms)]
pub fn term<'a>(
    alloc: Global,
    toks: &'a [Tok],
    limit: usize,
) -> Result<Option<(Term, &'a [Tok])>, AllocError>
    ensures { IfOk result (λ found. MatchOption found (term_in limit toks.now ≡ None) (λ p. term_in limit toks.now ≡ Some (p.0, p.1.now))) }
{
    if limit == 0 {
        return Ok(None);
    }
    match toks.split_first() {
        Some((Tok::Name(word), rest)) => {
            let Some(name) = Name::new(alloc, word.bytes())? else {
                return Ok(None);
            };
            let Some((args, left)) = args(alloc, rest, limit - 1)? else {
                return Ok(None);
            };
            Ok(Some((call(name, Items::from_vec(args)), left)))
        }
        _ => Ok(leaf(toks)),
    }
}

/// The arguments of a name.
#[cycle(terms)]
fn args<'a>(
    alloc: Global,
    toks: &'a [Tok],
    limit: usize,
) -> Result<Option<(Vec<Term>, &'a [Tok])>, AllocError>
    ensures { IfOk result (λ found. MatchOption found (args_in limit toks.now ≡ None) (λ p. args_in limit toks.now ≡ Some (p.0.items, p.1.now))) }
{
    let none = Vec::new(alloc);
    if limit == 0 {
        return Ok(Some((none, toks)));
    }
    match toks {
        [Tok::Open, rest @ ..] => next_arg(alloc, rest, none, limit - 1),
        _ => Ok(Some((none, toks))),
    }
}

/// An argument after these, and what comes after it.
#[cycle(terms)]
fn next_arg<'a>(
    alloc: Global,
    toks: &'a [Tok],
    mut args: Vec<Term>,
    limit: usize,
) -> Result<Option<(Vec<Term>, &'a [Tok])>, AllocError>
    ensures { IfOk result (λ found. MatchOption found
        (then_in (term_in limit toks.now) (λ x us. more_in limit (args.items ++ x ∷ []) us) ≡ None)
        (λ p. then_in (term_in limit toks.now) (λ x us. more_in limit (args.items ++ x ∷ []) us) ≡ Some (p.0.items, p.1.now))) }
{
    let Some((arg, rest)) = term(alloc, toks, limit)? else {
        return Ok(None);
    };
    args.push(arg)?;
    more_args(alloc, rest, args, limit)
}

/// The arguments after these, up to the closing parenthesis.
#[cycle(terms)]
fn more_args<'a>(
    alloc: Global,
    toks: &'a [Tok],
    mut args: Vec<Term>,
    limit: usize,
) -> Result<Option<(Vec<Term>, &'a [Tok])>, AllocError>
    ensures { IfOk result (λ found. MatchOption found (more_in limit args.items toks.now ≡ None) (λ p. more_in limit args.items toks.now ≡ Some (p.0.items, p.1.now))) }
{
    if limit == 0 {
        return Ok(None);
    }
    match toks {
        [Tok::Comma, rest @ ..] => next_arg(alloc, rest, args, limit - 1),
        [Tok::Close, rest @ ..] => {
            // Most lists are short, and a text keeps each of them.
            args.shrink_to_fit();
            Ok(Some((args, rest)))
        }
        _ => Ok(None),
    }
}

/// An atom, where at most `limit` tokens are left after its name.
pub fn atom<'a>(
    alloc: Global,
    toks: &'a [Tok],
    limit: usize,
) -> Result<Option<(Atom, &'a [Tok])>, AllocError>
    ensures { IfOk result (λ found. MatchOption found (atom_in limit toks.now ≡ None) (λ p. atom_in limit toks.now ≡ Some (p.0, p.1.now))) }
{
    let Some((Tok::Name(word), rest)) = toks.split_first() else {
        return Ok(None);
    };
    let Some(name) = Name::new(alloc, word.bytes())? else {
        return Ok(None);
    };
    let Some((args, left)) = args(alloc, rest, limit)? else {
        return Ok(None);
    };
    let args = Items::from_vec(args);
    Ok(Some((Atom { name, args }, left)))
}
