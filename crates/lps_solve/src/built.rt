ghost use Rattle.std.specs.Prelude.{◌≡◌, IfOk, Contains};
ghost use Rattle.lps_terms.specs.declared.built.Built.TheVariants.{Compare, Differ, Is, Same};
ghost use Rattle.lps_terms.specs.declared.term.Term.TheVariants.{Int};
ghost use Rattle.lps_derivation.specs.Instances.{IsSmallBuilt};
ghost use Rattle.lps_solve.specs.Met.{MeetsBuilt};
ghost use Rattle.lps_solve.specs.Moded.{IsReady};

use crate::ground::{is_ground, is_ground_expr};
use crate::ways::Ways;
use lps_terms::{Built, Expr, Rel, Term};
use lps_values::{holds, value};
use std::alloc::{AllocError, Global};

/// How a built-in is met. What it needs has no variables.
pub(crate) fn ways_to_meet(alloc: Global, built: Built) -> Result<Ways, AllocError>
    requires small { IsSmallBuilt built }
    requires ready { IsReady built }
    ensures { IfOk result (λ ways. MeetsBuilt built ways) }
{
    match built {
        Built::Same(left, right) => ways_to_be_same(alloc, left, right),
        Built::Differ(left, right) => ways_to_differ(alloc, left, right),
        Built::Is(left, right) => ways_to_be_value(alloc, left, right),
        Built::Compare(rel, left, right) => ways_to_compare(alloc, rel, left, right),
    }
}

fn ways_to_be_same(alloc: Global, left: Term, right: Term) -> Result<Ways, AllocError>
    requires small { IsSmallBuilt (Same left right) }
    requires ready { IsReady (Same left right) }
    ensures { IfOk result (λ ways. MeetsBuilt (Same left right) ways) }
{
    if is_ground(&left) {
        Ok(Ways::one(alloc, right, left)?)
    } else if is_ground(&right) {
        Ok(Ways::one(alloc, left, right)?)
    } else {
        Ok(Ways::never(alloc))
    }
}

fn ways_to_differ(alloc: Global, left: Term, right: Term) -> Result<Ways, AllocError>
    requires small { IsSmallBuilt (Differ left right) }
    requires ready { IsReady (Differ left right) }
    ensures { IfOk result (λ ways. MeetsBuilt (Differ left right) ways) }
{
    if !is_ground(&left) {
        return Ok(Ways::never(alloc));
    }
    if !is_ground(&right) {
        return Ok(Ways::never(alloc));
    }
    Ok(Ways::when(alloc, left != right)?)
}

fn ways_to_be_value(alloc: Global, left: Term, right: Expr) -> Result<Ways, AllocError>
    requires small { IsSmallBuilt (Is left right) }
    requires ready { IsReady (Is left right) }
    ensures { IfOk result (λ ways. MeetsBuilt (Is left right) ways) }
{
    if !is_ground_expr(&right) {
        return Ok(Ways::never(alloc));
    }
    match value(&right) {
        Some(value) => Ok(Ways::one(alloc, left, integer(value))?),
        None => Ok(Ways::never(alloc)),
    }
}

fn integer(value: i64) -> Term
    ensures { result ≡ Int value }
{
    Term::Int(value)
}

fn ways_to_compare(alloc: Global, rel: Rel, left: Expr, right: Expr) -> Result<Ways, AllocError>
    requires small { IsSmallBuilt (Compare rel left right) }
    requires ready { IsReady (Compare rel left right) }
    ensures { IfOk result (λ ways. MeetsBuilt (Compare rel left right) ways) }
{
    if !is_ground_expr(&left) {
        return Ok(Ways::never(alloc));
    }
    if !is_ground_expr(&right) {
        return Ok(Ways::never(alloc));
    }
    let built = Built::Compare(rel, left, right);
    Ok(Ways::when(alloc, holds(&built))?)
}
