ghost use Rattle.std.specs.Prelude.{◌≡◌, IfOk, length};
ghost use Rattle.std.specs.Bool.{Decides};
ghost use Rattle.lps_terms.specs.declared.term.Term.TheVariants.{Var};
ghost use Rattle.lps_facts.specs.Matching.{IsInstance, MatchesAllOn, MatchesOn};

use lps_terms::{Atom, Term, copy_term};
use std::alloc::{AllocError, Global};
use std::collections::BTreeMap;

/// Whether the fact is an instance of the pattern.
pub(crate) fn is_instance(alloc: Global, pattern: &Atom, fact: &Atom) -> Result<bool, AllocError>
    ensures { IfOk result (λ found. Decides found (IsInstance pattern.now fact.now)) }
{
    if pattern.name != fact.name {
        return Ok(false);
    }
    if pattern.args.len() != fact.args.len() {
        return Ok(false);
    }
    let mut known = BTreeMap::new(alloc);
    let found = match_all(
        alloc,
        pattern.args.as_slice(),
        fact.args.as_slice(),
        &mut known,
    )?;
    Ok(found)
}

/// Matches a pattern with a value, given what is known of the variables, and notes what that tells of them.
#[cycle(matching)]
fn match_term(
    alloc: Global,
    pattern: &Term,
    value: &Term,
    known: &mut BTreeMap<u32, Term>,
) -> Result<bool, AllocError>
    ensures { IfOk result (λ found. MatchesOn found known.old known.new pattern.now value.now) }
{
    match pattern {
        Term::Int(_) => Ok(pattern == value),
        Term::Sym(_) => Ok(pattern == value),
        Term::App(name, args) => match value {
            Term::App(other, values) => {
                if name != other {
                    return Ok(false);
                }
                if args.len() != values.len() {
                    return Ok(false);
                }
                let found = match_all(alloc, args.as_slice(), values.as_slice(), known)?;
                Ok(found)
            }
            Term::Int(_) => Ok(false),
            Term::Sym(_) => Ok(false),
            Term::Var(_) => Ok(false),
        },
        Term::Var(variable) => match_variable(alloc, *variable, value, known),
    }
}

#[cycle(matching)]
fn match_all(
    alloc: Global,
    patterns: &[Term],
    values: &[Term],
    known: &mut BTreeMap<u32, Term>,
) -> Result<bool, AllocError>
    requires { length patterns.now ≡ length values.now }
    ensures { IfOk result (λ found. MatchesAllOn found known.old known.new patterns.now values.now) }
{
    for i in 0..patterns.len() {
        let found = match_term(alloc, &patterns[i], &values[i], known)?;
        if !found {
            return Ok(false);
        }
    }
    Ok(true)
}

fn match_variable(
    alloc: Global,
    variable: u32,
    value: &Term,
    known: &mut BTreeMap<u32, Term>,
) -> Result<bool, AllocError>
    ensures { IfOk result (λ found. MatchesOn found known.old known.new (Var variable) value.now) }
{
    match known.get(&variable) {
        Some(bound) => Ok(bound == value),
        None => {
            known.insert(variable, copy_term(alloc, value)?)?;
            Ok(true)
        }
    }
}
