ghost use Rattle.std.specs.Prelude.{◌≡◌, ◌<◌, IfOk, OnOk};
ghost use Rattle.lps_unify.specs.Weights.{IsWithin};
ghost use Rattle.lps_unify.specs.Bindings.{count_of};
ghost use Rattle.lps_unify.specs.Slots.{IsFree};
ghost use Rattle.lps_unify.specs.Unified.{AreWithout, OccursOn};

use crate::bindings::Bindings;
use lps_terms::Term;
use std::alloc::{AllocError, Global};
use std::collections::BTreeSet;

/// Whether the variable stands in the term with the bindings put in. Each bound variable is visited once.
pub(crate) fn occurs(
    alloc: Global,
    bindings: &Bindings,
    variable: u32,
    term: &Term,
) -> Result<bool, AllocError>
    requires free { IsFree bindings.now variable }
    requires within { IsWithin (count_of bindings.now) term.now }
    ensures { IfOk result (λ found. OccursOn found bindings.now variable term.now) }
{
    let mut seen = BTreeSet::new(alloc);
    occurs_in(bindings, variable, term, &mut seen)
}

/// The same, where the variable stands in none of those that were seen.
#[cycle(occurs)]
fn occurs_in(
    bindings: &Bindings,
    variable: u32,
    term: &Term,
    seen: &mut BTreeSet<u32>,
) -> Result<bool, AllocError>
    requires free { IsFree bindings.now variable }
    requires within { IsWithin (count_of bindings.now) term.now }
    requires seen { AreWithout bindings.now variable seen.now }
    ensures found { IfOk result (λ found. OccursOn found bindings.now variable term.now) }
    ensures seen { OnOk result (AreWithout bindings.now variable seen.new) }
{
    match term {
        Term::Int(_) => Ok(false),
        Term::Sym(_) => Ok(false),
        Term::App(_, args) => {
            for arg in args.as_slice() {
                if occurs_in(bindings, variable, arg, seen)? {
                    return Ok(true);
                }
            }
            Ok(false)
        }
        Term::Var(other) => occurs_in_variable(bindings, variable, *other, seen),
    }
}

#[cycle(occurs)]
fn occurs_in_variable(
    bindings: &Bindings,
    variable: u32,
    other: u32,
    seen: &mut BTreeSet<u32>,
) -> Result<bool, AllocError>
    requires free { IsFree bindings.now variable }
    requires within { other < count_of bindings.now }
    requires seen { AreWithout bindings.now variable seen.now }
    ensures found { IfOk result (λ found. OccursOn found bindings.now variable (Term.Var other)) }
    ensures seen { OnOk result (AreWithout bindings.now variable seen.new) }
{
    if other == variable {
        return Ok(true);
    }
    if seen.contains(&other) {
        return Ok(false);
    }
    let Some(term) = bindings.bound(other) else {
        return Ok(false);
    };
    let found = occurs_in(bindings, variable, term, seen)?;
    if found {
        return Ok(true);
    }
    seen.insert(other)?;
    Ok(false)
}
