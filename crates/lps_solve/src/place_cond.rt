ghost use Rattle.std.specs.Prelude.{◌≡◌, IfOk, MatchOption};
ghost use Rattle.lps_model.specs.VariableLists.{built_vars, cond_vars};
ghost use Rattle.lps_derivation.specs.Instances.{IsSmallBuilt, IsSmallCond, put_built, put_cond};
ghost use Rattle.lps_unify.specs.Bindings.{count_of};
ghost use Rattle.lps_solve.specs.Placed.{AreBelow, values_in};

use crate::place::{place_atom, place_expr, place_term};
use lps_terms::{Built, Cond, Lit};
use lps_unify::Bindings;
use std::alloc::{AllocError, Global};

/// A condition with its variables counted from `base`, and the bindings put in; none where its atom or a side of it has more
/// than 1,024 symbols then.
pub(crate) fn place_cond(
    alloc: Global,
    bindings: &Bindings,
    base: u32,
    cond: &Cond,
) -> Result<Option<Cond>, AllocError>
    requires { AreBelow (count_of bindings.now) base (cond_vars cond.now) }
    ensures { IfOk result (λ found. MatchOption found (IsSmallCond (put_cond (values_in bindings.now base) cond.now) → ⊥) (λ x. (x ≡ put_cond (values_in bindings.now base) cond.now) × IsSmallCond x)) }
{
    match cond {
        Cond::Lit(lit) => match place_atom(alloc, bindings, base, &lit.atom)? {
            Some(atom) => Ok(Some(Cond::Lit(Lit {
                negated: lit.negated,
                atom,
            }))),
            None => Ok(None),
        },
        Cond::Built(built) => match place_built(alloc, bindings, base, built)? {
            Some(built) => Ok(Some(Cond::Built(built))),
            None => Ok(None),
        },
    }
}

fn place_built(
    alloc: Global,
    bindings: &Bindings,
    base: u32,
    built: &Built,
) -> Result<Option<Built>, AllocError>
    requires { AreBelow (count_of bindings.now) base (built_vars built.now) }
    ensures { IfOk result (λ found. MatchOption found (IsSmallBuilt (put_built (values_in bindings.now base) built.now) → ⊥) (λ x. (x ≡ put_built (values_in bindings.now base) built.now) × IsSmallBuilt x)) }
{
    match built {
        Built::Same(left, right) => match place_term(alloc, bindings, base, left)? {
            Some(left) => match place_term(alloc, bindings, base, right)? {
                Some(right) => Ok(Some(Built::Same(left, right))),
                None => Ok(None),
            },
            None => Ok(None),
        },
        Built::Differ(left, right) => match place_term(alloc, bindings, base, left)? {
            Some(left) => match place_term(alloc, bindings, base, right)? {
                Some(right) => Ok(Some(Built::Differ(left, right))),
                None => Ok(None),
            },
            None => Ok(None),
        },
        Built::Is(left, right) => match place_term(alloc, bindings, base, left)? {
            Some(left) => match place_expr(alloc, bindings, base, right)? {
                Some(right) => Ok(Some(Built::Is(left, right))),
                None => Ok(None),
            },
            None => Ok(None),
        },
        Built::Compare(rel, left, right) => match place_expr(alloc, bindings, base, left)? {
            Some(left) => match place_expr(alloc, bindings, base, right)? {
                Some(right) => Ok(Some(Built::Compare(*rel, left, right))),
                None => Ok(None),
            },
            None => Ok(None),
        },
    }
}
