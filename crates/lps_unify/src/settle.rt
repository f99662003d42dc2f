ghost use Rattle.std.specs.Prelude.{◌≡◌, ◌≢◌, ◌<◌, IfOk, OnOk, length};
ghost use Rattle.lps_unify.specs.Weights.{IsWithin};
ghost use Rattle.lps_unify.specs.Bindings.{count_of};
ghost use Rattle.lps_terms.specs.declared.term.Term.TheVariants.{Var};
ghost use Rattle.lps_unify.specs.Slots.{IsBound, IsFree};
ghost use Rattle.lps_unify.specs.Unified.{AreSame, AreWithin, IsExtended, IsNoVariable, IsStep, IsStepOfAll, JoinsOn};

use crate::bindings::Bindings;
use crate::occurs::occurs;
use crate::step::Step;
use lps_terms::{Term, copy_term};
use std::alloc::{AllocError, Global};
use std::collections::BTreeSet;

/// Bound variables, each with a term that was found to be equal to it.
type Pairs<'a> = BTreeSet<(u32, &'a Term)>;

/// Binds one variable after another, until the terms are the same or nothing makes them equal.
pub(crate) fn settle(
    alloc: Global,
    bindings: &mut Bindings,
    a: &Term,
    b: &Term,
) -> Result<bool, AllocError>
    requires left { IsWithin (count_of bindings.now) a.now }
    requires right { IsWithin (count_of bindings.now) b.now }
    ensures answer { IfOk result (λ found. JoinsOn found bindings.old bindings.new a.now b.now) }
    ensures extended { IsExtended bindings.old bindings.new }
{
    loop {
        match first_step(alloc, bindings, a, b)? {
            Step::Same => return Ok(true),
            Step::Clash => return Ok(false),
            Step::Bind(variable, term) => bindings.bind(variable, term)?,
        }
    }
}

/// The first step on the way to a unifier of the terms.
fn first_step(alloc: Global, bindings: &Bindings, a: &Term, b: &Term) -> Result<Step, AllocError>
    requires left { IsWithin (count_of bindings.now) a.now }
    requires right { IsWithin (count_of bindings.now) b.now }
    ensures { IfOk result (λ step. IsStep bindings.now a.now b.now step) }
{
    let mut same = BTreeSet::new(alloc);
    next_step(alloc, bindings, a, b, &mut same)
}

/// The same, where some variables were found to be equal to some terms.
#[cycle(step)]
fn next_step<'a>(
    alloc: Global,
    bindings: &'a Bindings,
    a: &'a Term,
    b: &'a Term,
    same: &mut Pairs<'a>,
) -> Result<Step, AllocError>
    requires left { IsWithin (count_of bindings.now) a.now }
    requires right { IsWithin (count_of bindings.now) b.now }
    requires same { AreSame bindings.now same.now }
    ensures step { IfOk result (λ step. IsStep bindings.now a.now b.now step) }
    ensures same { OnOk result (AreSame bindings.now same.new) }
{
    match (a, b) {
        (Term::Var(v), _) => step_of_variable(alloc, bindings, *v, a, b, same),
        (Term::Int(_), Term::Var(w)) => step_of_variable(alloc, bindings, *w, b, a, same),
        (Term::Sym(_), Term::Var(w)) => step_of_variable(alloc, bindings, *w, b, a, same),
        (Term::App(_, _), Term::Var(w)) => step_of_variable(alloc, bindings, *w, b, a, same),
        (Term::Int(x), Term::Int(y)) => Ok(if x == y { Step::Same } else { Step::Clash }),
        (Term::Sym(n), Term::Sym(m)) => Ok(if n == m { Step::Same } else { Step::Clash }),
        (Term::App(n, xs), Term::App(m, ys)) => {
            if n != m {
                return Ok(Step::Clash);
            }
            if xs.len() != ys.len() {
                return Ok(Step::Clash);
            }
            step_of_all(alloc, bindings, xs.as_slice(), ys.as_slice(), same)
        }
        (Term::Int(_), Term::Sym(_)) => Ok(Step::Clash),
        (Term::Int(_), Term::App(_, _)) => Ok(Step::Clash),
        (Term::Sym(_), Term::Int(_)) => Ok(Step::Clash),
        (Term::Sym(_), Term::App(_, _)) => Ok(Step::Clash),
        (Term::App(_, _), Term::Int(_)) => Ok(Step::Clash),
        (Term::App(_, _), Term::Sym(_)) => Ok(Step::Clash),
    }
}

/// The same of two lists, item by item.
#[cycle(step)]
fn step_of_all<'a>(
    alloc: Global,
    bindings: &'a Bindings,
    xs: &'a [Term],
    ys: &'a [Term],
    same: &mut Pairs<'a>,
) -> Result<Step, AllocError>
    requires left { AreWithin (count_of bindings.now) xs.now }
    requires right { AreWithin (count_of bindings.now) ys.now }
    requires count { length xs.now ≡ length ys.now }
    requires same { AreSame bindings.now same.now }
    ensures step { IfOk result (λ step. IsStepOfAll bindings.now xs.now ys.now step) }
    ensures same { OnOk result (AreSame bindings.now same.new) }
{
    for i in 0..xs.len() {
        match next_step(alloc, bindings, &xs[i], &ys[i], same)? {
            Step::Same => {}
            Step::Clash => return Ok(Step::Clash),
            Step::Bind(variable, term) => return Ok(Step::Bind(variable, term)),
        }
    }
    Ok(Step::Same)
}

/// The same of a variable, which is `a`, and a term.
#[cycle(step)]
fn step_of_variable<'a>(
    alloc: Global,
    bindings: &'a Bindings,
    v: u32,
    a: &'a Term,
    b: &'a Term,
    same: &mut Pairs<'a>,
) -> Result<Step, AllocError>
    requires variable { a.now ≡ Var v }
    requires left { v < count_of bindings.now }
    requires right { IsWithin (count_of bindings.now) b.now }
    requires same { AreSame bindings.now same.now }
    ensures step { IfOk result (λ step. IsStep bindings.now (Var v) b.now step) }
    ensures same { OnOk result (AreSame bindings.now same.new) }
{
    match bindings.bound(v) {
        Some(term) => step_of_bound(alloc, bindings, v, term, b, same),
        None => step_of_free(alloc, bindings, v, a, b, same),
    }
}

/// The same of a variable that is bound to `term`, and a term. Each such pair is gone into once.
#[cycle(step)]
fn step_of_bound<'a>(
    alloc: Global,
    bindings: &'a Bindings,
    v: u32,
    term: &'a Term,
    b: &'a Term,
    same: &mut Pairs<'a>,
) -> Result<Step, AllocError>
    requires bound { IsBound bindings.now v term.now }
    requires right { IsWithin (count_of bindings.now) b.now }
    requires same { AreSame bindings.now same.now }
    ensures step { IfOk result (λ step. IsStep bindings.now (Var v) b.now step) }
    ensures same { OnOk result (AreSame bindings.now same.new) }
{
    if same.contains(&(v, b)) {
        return Ok(Step::Same);
    }
    match next_step(alloc, bindings, term, b, same)? {
        Step::Same => {
            same.insert((v, b))?;
            Ok(Step::Same)
        }
        Step::Clash => Ok(Step::Clash),
        Step::Bind(variable, other) => Ok(Step::Bind(variable, other)),
    }
}

/// The same of a variable that is not bound, which is `a`, and a term.
#[cycle(step)]
fn step_of_free<'a>(
    alloc: Global,
    bindings: &'a Bindings,
    v: u32,
    a: &'a Term,
    b: &'a Term,
    same: &mut Pairs<'a>,
) -> Result<Step, AllocError>
    requires variable { a.now ≡ Var v }
    requires left { v < count_of bindings.now }
    requires right { IsWithin (count_of bindings.now) b.now }
    requires free { IsFree bindings.now v }
    requires same { AreSame bindings.now same.now }
    ensures step { IfOk result (λ step. IsStep bindings.now (Var v) b.now step) }
    ensures same { OnOk result (AreSame bindings.now same.new) }
{
    match b {
        Term::Var(w) => {
            if *w == v {
                return Ok(Step::Same);
            }
            match bindings.bound(*w) {
                Some(term) => next_step(alloc, bindings, a, term, same),
                None => Ok(Step::Bind(v, Term::Var(*w))),
            }
        }
        Term::Int(_) => step_to_bind(alloc, bindings, v, b),
        Term::Sym(_) => step_to_bind(alloc, bindings, v, b),
        Term::App(_, _) => step_to_bind(alloc, bindings, v, b),
    }
}

/// Binds a variable that is not bound to a term that is no variable, unless it stands in that.
fn step_to_bind(alloc: Global, bindings: &Bindings, v: u32, b: &Term) -> Result<Step, AllocError>
    requires left { v < count_of bindings.now }
    requires right { IsWithin (count_of bindings.now) b.now }
    requires none { IsNoVariable b.now }
    requires free { IsFree bindings.now v }
    ensures { IfOk result (λ step. IsStep bindings.now (Var v) b.now step) }
{
    if occurs(alloc, bindings, v, b)? {
        return Ok(Step::Clash);
    }
    Ok(Step::Bind(v, copy_term(alloc, b)?))
}
