ghost use Rattle.std.specs.Prelude.{◌≡◌, ◌<◌, IfOk, length};
ghost use Rattle.lps_terms.specs.declared.term.Term.TheVariants.{Var};
ghost use Rattle.lps_unify.specs.Weights.{IsWithin};
ghost use Rattle.lps_unify.specs.Bindings.{count_of};
ghost use Rattle.lps_unify.specs.Slots.{IsFree};
ghost use Rattle.lps_unify.specs.Unified.{AreWithin, IsExtended, IsNoVariable, JoinsAllOn, JoinsOn};

use crate::bindings::Bindings;
use crate::occurs::occurs;
use crate::settle::settle;
use lps_terms::{Term, copy_term};
use std::alloc::{AllocError, Global};

/// Binds variables so that the terms are equal. What was bound on the way to false or to an error stays.
#[cycle(join)]
pub(crate) fn join(
    alloc: Global,
    bindings: &mut Bindings,
    a: &Term,
    b: &Term,
) -> Result<bool, AllocError>
    requires left { IsWithin (count_of bindings.now) a.now }
    requires right { IsWithin (count_of bindings.now) b.now }
    ensures answer { IfOk result (λ found. JoinsOn found bindings.old bindings.new a.now b.now) }
    ensures extended { IsExtended bindings.old bindings.new }
{
    match (a, b) {
        (Term::App(n, xs), Term::App(m, ys)) => {
            if n != m {
                return Ok(false);
            }
            if xs.len() != ys.len() {
                return Ok(false);
            }
            join_all(alloc, bindings, xs.as_slice(), ys.as_slice())
        }
        (Term::Var(v), Term::Int(_)) => join_variable(alloc, bindings, *v, b),
        (Term::Var(v), Term::Sym(_)) => join_variable(alloc, bindings, *v, b),
        (Term::Var(v), Term::App(_, _)) => join_variable(alloc, bindings, *v, b),
        (Term::Int(_), Term::Var(w)) => join_variable(alloc, bindings, *w, a),
        (Term::Sym(_), Term::Var(w)) => join_variable(alloc, bindings, *w, a),
        (Term::App(_, _), Term::Var(w)) => join_variable(alloc, bindings, *w, a),
        _ => settle(alloc, bindings, a, b),
    }
}

#[cycle(join)]
fn join_all(
    alloc: Global,
    bindings: &mut Bindings,
    xs: &[Term],
    ys: &[Term],
) -> Result<bool, AllocError>
    requires left { AreWithin (count_of bindings.now) xs.now }
    requires right { AreWithin (count_of bindings.now) ys.now }
    requires count { length xs.now ≡ length ys.now }
    ensures answer { IfOk result (λ found. JoinsAllOn found bindings.old bindings.new xs.now ys.now) }
    ensures extended { IsExtended bindings.old bindings.new }
{
    for i in 0..xs.len() {
        let found = join(alloc, bindings, &xs[i], &ys[i])?;
        if !found {
            return Ok(false);
        }
    }
    Ok(true)
}

/// The same of a variable and a term that is none.
fn join_variable(
    alloc: Global,
    bindings: &mut Bindings,
    v: u32,
    b: &Term,
) -> Result<bool, AllocError>
    requires left { v < count_of bindings.now }
    requires right { IsWithin (count_of bindings.now) b.now }
    requires none { IsNoVariable b.now }
    ensures answer { IfOk result (λ found. JoinsOn found bindings.old bindings.new (Var v) b.now) }
    ensures extended { IsExtended bindings.old bindings.new }
{
    if bindings.is_bound(v) {
        settle(alloc, bindings, &Term::Var(v), b)
    } else {
        bind_free(alloc, bindings, v, b)
    }
}

/// The same of a variable that is not bound.
fn bind_free(alloc: Global, bindings: &mut Bindings, v: u32, b: &Term) -> Result<bool, AllocError>
    requires left { v < count_of bindings.now }
    requires right { IsWithin (count_of bindings.now) b.now }
    requires none { IsNoVariable b.now }
    requires free { IsFree bindings.now v }
    ensures answer { IfOk result (λ found. JoinsOn found bindings.old bindings.new (Var v) b.now) }
    ensures extended { IsExtended bindings.old bindings.new }
{
    if occurs(alloc, bindings, v, b)? {
        return Ok(false);
    }
    bindings.bind(v, copy_term(alloc, b)?)?;
    Ok(true)
}
