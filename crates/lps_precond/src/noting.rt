//! The variables of conditions.
ghost use Rattle.std.specs.Prelude.{◌≡◌, ◌<◌, Contains, IfOk, OnOk, map};
ghost use Rattle.std.specs.List.{AllByRecursion, flat_map};
ghost use Rattle.lps_terms.specs.declared.term.Term.TheVariants.{Var};
ghost use Rattle.lps_model.specs.VariableLists.{cond_vars};
ghost use Rattle.lps_precond.specs.Stages.{vars_of, vars_with};

use lps_solve::{above_conds, note_cond};
use lps_terms::{Args, Cond, Term};
use sqlite_items::Items;
use std::alloc::{AllocError, Global};
use std::collections::BTreeSet;

/// The variables of conditions, by rising number, as terms.
pub(crate) fn variables_of(alloc: Global, conds: &[Cond]) -> Result<Args, AllocError>
    ensures { IfOk result (λ terms. terms ≡ map (λ v. Var v) (vars_of conds.now)) }
{
    let mut variables = BTreeSet::new(alloc);
    note_conds(conds, &mut variables)?;
    set_as_terms(alloc, variables)
}

/// The same of conditions and more of them.
pub(crate) fn variables_of_both(
    alloc: Global,
    conds: &[Cond],
    more: &[Cond],
) -> Result<Args, AllocError>
    ensures { IfOk result (λ terms. terms ≡ map (λ v. Var v) (vars_with (vars_of conds.now) more.now)) }
{
    let mut variables = BTreeSet::new(alloc);
    note_conds(conds, &mut variables)?;
    note_conds(more, &mut variables)?;
    set_as_terms(alloc, variables)
}

/// The variables of conditions that others share with them.
pub(crate) fn shared_variables(
    alloc: Global,
    conds: &[Cond],
    others: &[Cond],
) -> Result<Vec<u32>, AllocError>
    ensures { IfOk result (λ shared. AllByRecursion (Contains (flat_map cond_vars conds.now)) shared.items) }
{
    let mut own = BTreeSet::new(alloc);
    note_conds(conds, &mut own)?;
    let mut all = BTreeSet::new(alloc);
    note_conds(others, &mut all)?;
    let mut shared = Vec::new(alloc);
    for variable in own {
        if all.contains(&variable) {
            shared.push(variable)?;
        }
    }
    Ok(shared)
}

/// The variables as terms.
pub(crate) fn as_terms(alloc: Global, variables: &[u32]) -> Result<Args, AllocError>
    ensures { IfOk result (λ terms. terms ≡ map (λ v. Var v) variables.now) }
{
    let mut terms = Vec::new(alloc);
    for variable in variables {
        terms.push(Term::Var(*variable))?;
    }
    Ok(Items::from_vec(terms))
}

/// Notes the variables of conditions.
fn note_conds(conds: &[Cond], variables: &mut BTreeSet<u32>) -> Result<(), AllocError>
    ensures { OnOk result (variables.new.keys ≡ vars_with variables.old.keys conds.now) }
{
    for cond in conds {
        note_cond(cond, variables)?;
    }
    Ok(())
}

fn set_as_terms(alloc: Global, variables: BTreeSet<u32>) -> Result<Args, AllocError>
    ensures { IfOk result (λ terms. terms ≡ map (λ v. Var v) variables.keys) }
{
    let mut terms = Vec::new(alloc);
    for variable in variables {
        terms.push(Term::Var(variable))?;
    }
    Ok(Items::from_vec(terms))
}

#[tactic(auto, using(crate::proofs::Variables::below_more))]
/// A number above those of the variables of all these conditions, where it is in range.
pub(crate) fn above_all(first: &[Cond], second: &[Cond], third: &[Cond]) -> Result<u32, AllocError>
    ensures first { IfOk result (λ above. AllByRecursion (λ v. v < above) (flat_map cond_vars first.now)) }
    ensures second { IfOk result (λ above. AllByRecursion (λ v. v < above) (flat_map cond_vars second.now)) }
    ensures third { IfOk result (λ above. AllByRecursion (λ v. v < above) (flat_map cond_vars third.now)) }
{
    let above = above_conds(first)
        .max(above_conds(second))
        .max(above_conds(third));
    match u32::try_from(above) {
        Ok(above) => Ok(above),
        Err(_) => Err(AllocError),
    }
}
