ghost use Rattle.std.specs.Prelude.{◌≡◌, IfOk, if◌then◌else◌, length, true};
ghost use Rattle.std.specs.Bool.{Decides};
ghost use Rattle.std.specs.List.{list_all};
ghost use Rattle.lps_terms.specs.declared.term.Term.TheVariants.{Var};
ghost use Rattle.lps_facts.specs.Beginning.{BeginsAs, begin_alike, is_fixed, least_atom, least_of};

use lps_terms::{Atom, Term, copy_term};
use sqlite_items::Items;
use std::alloc::{AllocError, Global};

/// Whether a term has no variables.
#[cycle(fixed)]
fn is_fixed(term: &Term) -> bool
    ensures { result ≡ is_fixed term.now }
{
    match term {
        Term::Int(_) => true,
        Term::Sym(_) => true,
        Term::App(_, args) => are_fixed(args.as_slice()),
        Term::Var(_) => false,
    }
}

/// Whether no term has a variable.
#[cycle(fixed)]
pub(crate) fn are_fixed(terms: &[Term]) -> bool
    ensures { result ≡ list_all is_fixed terms.now }
{
    for term in terms {
        if !is_fixed(term) {
            return false;
        }
    }
    true
}

/// The least atom that begins as the pattern does: with its name, the number of its arguments, and those before the first
/// that has a variable.
pub(crate) fn least_atom(alloc: Global, pattern: &Atom) -> Result<Atom, AllocError>
    ensures { IfOk result (λ least. least ≡ least_atom pattern.now) }
{
    let name = pattern.name.copy(alloc)?;
    let args = least_args(alloc, pattern.args.as_slice())?;
    Ok(Atom {
        name,
        args: Items::from_vec(args),
    })
}

fn least_args(alloc: Global, patterns: &[Term]) -> Result<Vec<Term>, AllocError>
    ensures { IfOk result (λ least. least.items ≡ least_of true patterns.now) }
{
    let mut least = Vec::new(alloc);
    let mut fixed = true;
    for pattern in patterns {
        fixed = fixed && is_fixed(pattern);
        least.push(fixed_or_least(alloc, fixed, pattern)?)?;
    }
    Ok(least)
}

/// The term where it is fixed, or else the least term.
fn fixed_or_least(alloc: Global, fixed: bool, pattern: &Term) -> Result<Term, AllocError>
    ensures { IfOk result (λ least. least ≡ (if fixed then pattern.now else Var 0)) }
{
    if fixed {
        return copy_term(alloc, pattern);
    }
    Ok(Term::Var(0))
}

/// Whether the fact begins as the pattern does.
pub(crate) fn begins_as(pattern: &Atom, fact: &Atom) -> bool
    ensures { Decides result (BeginsAs pattern.now fact.now) }
{
    if pattern.name != fact.name {
        return false;
    }
    if pattern.args.len() != fact.args.len() {
        return false;
    }
    begin_alike(pattern.args.as_slice(), fact.args.as_slice())
}

/// Whether the values begin with the patterns before the first that has a variable.
fn begin_alike(patterns: &[Term], values: &[Term]) -> bool
    requires { length patterns.now ≡ length values.now }
    ensures { result ≡ begin_alike patterns.now values.now }
{
    for i in 0..patterns.len() {
        if !is_fixed(&patterns[i]) {
            return true;
        }
        if patterns[i] != values[i] {
            return false;
        }
    }
    true
}
