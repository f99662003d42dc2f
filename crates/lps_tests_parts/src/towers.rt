//! Terms that are far too large to be written out, since their parts are shared.
use crate::unifiers::{check_term, fits, resolved, unify};
use lps_terms::{Name, Term, args_of};
use lps_unify::Bindings;
use std::alloc::Global;
use std::process::Abort;
use std::test::Fail;

/// `f(left, right)`
fn pair(alloc: Global, left: Term, right: Term) -> Result<Term, Fail> {
    let args = vec![in alloc; left, right]?;
    let name = Name::new(alloc, b"f")?.ok_or("no name")?;
    Ok(Term::App(name, args_of(args)))
}

/// `f(V, V)`, for the variable of this number.
fn twice(alloc: Global, variable: u32) -> Result<Term, Fail> {
    pair(alloc, Term::Var(variable), Term::Var(variable))
}

/// `f(f(V, V), f(V, V))`, for the variable of this number.
fn four(alloc: Global, variable: u32) -> Result<Term, Fail> {
    pair(alloc, twice(alloc, variable)?, twice(alloc, variable)?)
}

/// Binds the variable to two of the next one.
fn bind_to_two(
    rt: &impl Abort,
    alloc: Global,
    bindings: &mut Bindings,
    variable: u32,
) -> Result<(), Fail> {
    let term = twice(alloc, variable.saturating_add(1))?;
    assert!(rt; unify(bindings, &Term::Var(variable), &term)?);
    Ok(())
}

/// Two towers whose resolved terms have 2^81 symbols.
#[test]
fn shared_terms_are_not_written_out(rt: HostRuntime) -> Result<(), Fail> {
    let alloc = rt.alloc();
    let mut bindings = Bindings::new(alloc, 200)?;
    for i in 0..80u32 {
        bind_to_two(&rt, alloc, &mut bindings, i)?;
        bind_to_two(&rt, alloc, &mut bindings, i.saturating_add(100))?;
    }
    assert!(rt; unify(&mut bindings, &Term::Var(0), &Term::Var(100))?);
    assert!(rt; unify(&mut bindings, &Term::Var(80), &Term::Int(7))?);
    check_term(&rt, alloc, &resolved(&bindings, &Term::Var(180))?, "7")?;
    assert!(rt; !fits(&bindings, &Term::Var(0))?);
    assert!(rt; fits(&bindings, &Term::Var(72))?);
    Ok(())
}

/// Binds the variable to four of the next one.
fn bind_to_four(
    rt: &impl Abort,
    alloc: Global,
    bindings: &mut Bindings,
    variable: u32,
) -> Result<(), Fail> {
    let term = four(alloc, variable.saturating_add(1))?;
    assert!(rt; unify(bindings, &Term::Var(variable), &term)?);
    Ok(())
}

/// Two towers that meet a variable with a function at each step.
#[test]
fn towers_out_of_step_are_unified(rt: HostRuntime) -> Result<(), Fail> {
    let alloc = rt.alloc();
    let mut bindings = Bindings::new(alloc, 200)?;
    for i in 0..60u32 {
        bind_to_four(&rt, alloc, &mut bindings, i)?;
        bind_to_four(&rt, alloc, &mut bindings, i.saturating_add(100))?;
    }
    assert!(rt; unify(&mut bindings, &Term::Var(0), &twice(alloc, 100)?)?);
    let last = resolved(&bindings, &Term::Var(60))?;
    check_term(&rt, alloc, &last, "f(V0, V0)")
}
