ghost use Rattle.std.specs.Prelude.{◌≡◌, IfOk, MatchOption, Some, None};
ghost use Rattle.lps_build.specs.ReadStatements.{alternatives_in, body_in, clause_in, conditions_in, dot_in, denial_in, headed_in, if_seq, initially_in, law_in, macro_in, or_in, rule_in, statement_in, then_seq};

use crate::declarations::declare;
use crate::items::times;
use crate::lists::parts;
use crate::terms::atom;
use lps_grammar::Tok;
use lps_terms::{Atom, Body, Cond, Item, Kind};
use sqlite_items::Items;
use std::alloc::{AllocError, Global};

/// The conditions after `if`, if it stands there.
fn conditions<'a>(
    alloc: Global,
    toks: &'a [Tok],
    limit: usize,
) -> Result<Option<(Items<Cond>, &'a [Tok])>, AllocError>
    ensures { IfOk result (λ found. MatchOption found (conditions_in limit toks.now ≡ None) (λ p. conditions_in limit toks.now ≡ Some (p.0, p.1.now))) }
{
    let [Tok::If, rest @ ..] = toks else {
        return Ok(Some((Items::new(alloc), toks)));
    };
    let Some((conds, rest)) = parts::<Cond>(alloc, rest, limit)? else {
        return Ok(None);
    };
    Ok(Some((conds, rest)))
}

/// The tokens after `or`, if it stands here.
fn after_or(toks: &[Tok]) -> Option<&[Tok]>
    ensures { MatchOption result (or_in toks.now ≡ None) (λ rest. or_in toks.now ≡ Some rest.now) }
{
    match toks {
        [Tok::Or, rest @ ..] => Some(rest),
        _ => None,
    }
}

#[tactic(auto, using(crate::proofs::Steps::alternatives_end, crate::proofs::Steps::alternative_missing, crate::proofs::Steps::alternative_step))]
/// The alternatives before, and those that follow, each after `or`.
fn alternatives<'a>(
    alloc: Global,
    toks: &'a [Tok],
    mut before: Vec<Items<Item>>,
    limit: usize,
) -> Result<Option<(Items<Items<Item>>, &'a [Tok])>, AllocError>
    ensures { IfOk result (λ found. MatchOption found (alternatives_in limit before.items toks.now ≡ None) (λ p. alternatives_in limit before.items toks.now ≡ Some (p.0, p.1.now))) }
{
    let mut left = toks;
    let mut room = limit;
    while room > 0 {
        let Some(rest) = after_or(left) else {
            return Ok(Some((Items::from_vec(before), left)));
        };
        let Some((seq, rest)) = parts::<Item>(alloc, rest, room - 1)? else {
            return Ok(None);
        };
        before.push(seq)?;
        left = rest;
        room -= 1;
    }
    Ok(Some((Items::from_vec(before), left)))
}

/// A rule after its `if`.
fn rule<'a>(
    alloc: Global,
    toks: &'a [Tok],
    limit: usize,
) -> Result<Option<(Body, &'a [Tok])>, AllocError>
    ensures { IfOk result (λ found. MatchOption found (rule_in limit toks.now ≡ None) (λ p. rule_in limit toks.now ≡ Some (p.0, p.1.now))) }
{
    let Some((antecedent, rest)) = parts::<Item>(alloc, toks, limit)? else {
        return Ok(None);
    };
    let Some((first, rest)) = after_then(alloc, rest, limit)? else {
        return Ok(None);
    };
    let mut seqs = Vec::new(alloc);
    seqs.push(first)?;
    let Some((alternatives, rest)) = alternatives(alloc, rest, seqs, limit)? else {
        return Ok(None);
    };
    let rule = Body::Rule {
        antecedent,
        alternatives,
    };
    Ok(Some((rule, rest)))
}

/// A sequence after `then`.
fn after_then<'a>(
    alloc: Global,
    toks: &'a [Tok],
    limit: usize,
) -> Result<Option<(Items<Item>, &'a [Tok])>, AllocError>
    ensures { IfOk result (λ found. MatchOption found (then_seq limit toks.now ≡ None) (λ p. then_seq limit toks.now ≡ Some (p.0, p.1.now))) }
{
    let [Tok::Then, rest @ ..] = toks else {
        return Ok(None);
    };
    parts::<Item>(alloc, rest, limit)
}

/// A sequence after `if`.
fn after_if<'a>(
    alloc: Global,
    toks: &'a [Tok],
    limit: usize,
) -> Result<Option<(Items<Item>, &'a [Tok])>, AllocError>
    ensures { IfOk result (λ found. MatchOption found (if_seq limit toks.now ≡ None) (λ p. if_seq limit toks.now ≡ Some (p.0, p.1.now))) }
{
    let [Tok::If, rest @ ..] = toks else {
        return Ok(None);
    };
    parts::<Item>(alloc, rest, limit)
}

/// A law after its verb.
fn law<'a>(
    alloc: Global,
    initiates: bool,
    event: Atom,
    toks: &'a [Tok],
    limit: usize,
) -> Result<Option<(Body, &'a [Tok])>, AllocError>
    ensures { IfOk result (λ found. MatchOption found (law_in limit initiates event toks.now ≡ None) (λ p. law_in limit initiates event toks.now ≡ Some (p.0, p.1.now))) }
{
    let Some((fluent, rest)) = atom(alloc, toks, limit)? else {
        return Ok(None);
    };
    let Some((conds, rest)) = conditions(alloc, rest, limit)? else {
        return Ok(None);
    };
    let law = Body::Law {
        initiates,
        event,
        fluent,
        conds,
    };
    Ok(Some((law, rest)))
}

/// A macro clause after `from`.
fn macro_clause<'a>(
    alloc: Global,
    head: Atom,
    toks: &'a [Tok],
    limit: usize,
) -> Result<Option<(Body, &'a [Tok])>, AllocError>
    ensures { IfOk result (λ found. MatchOption found (macro_in limit head toks.now ≡ None) (λ p. macro_in limit head toks.now ≡ Some (p.0, p.1.now))) }
{
    let Some(((begin, end), rest)) = times(toks) else {
        return Ok(None);
    };
    let Some((items, rest)) = after_if(alloc, rest, limit)? else {
        return Ok(None);
    };
    let clause = Body::MacroClause {
        head,
        begin,
        end,
        items,
    };
    Ok(Some((clause, rest)))
}

/// A clause after its head.
fn clause<'a>(
    alloc: Global,
    head: Atom,
    toks: &'a [Tok],
    limit: usize,
) -> Result<Option<(Body, &'a [Tok])>, AllocError>
    ensures { IfOk result (λ found. MatchOption found (clause_in limit head toks.now ≡ None) (λ p. clause_in limit head toks.now ≡ Some (p.0, p.1.now))) }
{
    let Some((conds, rest)) = conditions(alloc, toks, limit)? else {
        return Ok(None);
    };
    Ok(Some((Body::Clause { head, conds }, rest)))
}

/// A statement after its first atom.
fn headed<'a>(
    alloc: Global,
    first: Atom,
    toks: &'a [Tok],
    limit: usize,
) -> Result<Option<(Body, &'a [Tok])>, AllocError>
    ensures { IfOk result (λ found. MatchOption found (headed_in limit first toks.now ≡ None) (λ p. headed_in limit first toks.now ≡ Some (p.0, p.1.now))) }
{
    match toks {
        [Tok::Initiates, rest @ ..] => law(alloc, true, first, rest, limit),
        [Tok::Terminates, rest @ ..] => law(alloc, false, first, rest, limit),
        [Tok::From, rest @ ..] => macro_clause(alloc, first, rest, limit),
        _ => clause(alloc, first, toks, limit),
    }
}

/// A statement without its full stop.
fn body<'a>(
    alloc: Global,
    toks: &'a [Tok],
    limit: usize,
) -> Result<Option<(Body, &'a [Tok])>, AllocError>
    ensures { IfOk result (λ found. MatchOption found (body_in limit toks.now ≡ None) (λ p. body_in limit toks.now ≡ Some (p.0, p.1.now))) }
{
    match toks {
        [Tok::Fluent, rest @ ..] => declare(alloc, Kind::Fluent, rest, limit),
        [Tok::Event, rest @ ..] => declare(alloc, Kind::Event, rest, limit),
        [Tok::Action, rest @ ..] => declare(alloc, Kind::Action, rest, limit),
        [Tok::Timeless, rest @ ..] => declare(alloc, Kind::Timeless, rest, limit),
        [Tok::Derived, rest @ ..] => declare(alloc, Kind::Derived, rest, limit),
        [Tok::Macro, rest @ ..] => declare(alloc, Kind::Macro, rest, limit),
        [Tok::Initially, rest @ ..] => initially(alloc, rest, limit),
        [Tok::False, rest @ ..] => denial(alloc, rest, limit),
        [Tok::If, rest @ ..] => rule(alloc, rest, limit),
        _ => {
            let Some((first, rest)) = atom(alloc, toks, limit)? else {
                return Ok(None);
            };
            headed(alloc, first, rest, limit)
        }
    }
}

/// The atoms of `initially`.
fn initially<'a>(
    alloc: Global,
    toks: &'a [Tok],
    limit: usize,
) -> Result<Option<(Body, &'a [Tok])>, AllocError>
    ensures { IfOk result (λ found. MatchOption found (initially_in limit toks.now ≡ None) (λ p. initially_in limit toks.now ≡ Some (p.0, p.1.now))) }
{
    let Some((facts, rest)) = parts::<Atom>(alloc, toks, limit)? else {
        return Ok(None);
    };
    Ok(Some((Body::Initially(facts), rest)))
}

/// The sequence of a denial.
fn denial<'a>(
    alloc: Global,
    toks: &'a [Tok],
    limit: usize,
) -> Result<Option<(Body, &'a [Tok])>, AllocError>
    ensures { IfOk result (λ found. MatchOption found (denial_in limit toks.now ≡ None) (λ p. denial_in limit toks.now ≡ Some (p.0, p.1.now))) }
{
    let Some((items, rest)) = parts::<Item>(alloc, toks, limit)? else {
        return Ok(None);
    };
    Ok(Some((Body::Denial(items), rest)))
}

/// The statement, if its full stop follows.
fn stopped(body: Body, toks: &[Tok]) -> Option<(Body, &[Tok])>
    ensures { MatchOption result (dot_in body toks.now ≡ None) (λ p. dot_in body toks.now ≡ Some (p.0, p.1.now)) }
{
    match toks {
        [Tok::Dot, rest @ ..] => Some((body, rest)),
        _ => None,
    }
}

/// A statement with its full stop, where at most `limit` tokens are left.
pub fn statement<'a>(
    alloc: Global,
    toks: &'a [Tok],
    limit: usize,
) -> Result<Option<(Body, &'a [Tok])>, AllocError>
    ensures { IfOk result (λ found. MatchOption found (statement_in limit toks.now ≡ None) (λ p. statement_in limit toks.now ≡ Some (p.0, p.1.now))) }
{
    let Some((body, rest)) = body(alloc, toks, limit)? else {
        return Ok(None);
    };
    Ok(stopped(body, rest))
}
