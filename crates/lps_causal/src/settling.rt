ghost use Rattle.std.specs.Prelude.{◌≡◌, ◌↔◌, not, IfOk, Contains};
ghost use Rattle.std.specs.List.{filter};
ghost use Rattle.std.specs.List.Sorted.{IsStrictlySortedBy};
ghost use Rattle.lps_terms.specs.declared.atom.Atom.{Atom as Fluent};
ghost use Rattle.lps_terms.specs.Order.{atom_cmp};
ghost use Rattle.lps_facts.specs.Facts.{is_among};
ghost use Rattle.lps_causal.specs.Given.{IsSettled};

use crate::given::Given;
use lps_terms::{Atom, Effects};
use sqlite_items::Items;
use std::alloc::AllocError;

/// The effects where laws give some fluents: initiation wins.
pub(crate) fn settled(given: Given) -> Result<Effects, AllocError>
    ensures { IfOk result (λ effects. IsSettled given effects) }
{
    let initiated = in_order(given.initiated)?;
    let terminated = in_order(given.terminated)?;
    let terminated = others(terminated, initiated.as_slice());
    Ok(Effects {
        initiated: Items::from_vec(initiated),
        terminated: Items::from_vec(terminated),
    })
}

/// The fluents in order, each once.
fn in_order(mut fluents: Vec<Atom>) -> Result<Vec<Atom>, AllocError>
    ensures sorted { IfOk result (λ ordered. IsStrictlySortedBy atom_cmp ordered.items) }
    ensures same { IfOk result (λ ordered. (a : Fluent) → Contains ordered.items a ↔ Contains fluents.items a) }
{
    fluents.sort()?;
    fluents.dedup();
    Ok(fluents)
}

/// The fluents that are none of these, which are in order.
fn others(mut fluents: Vec<Atom>, these: &[Atom]) -> Vec<Atom>
    requires { IsStrictlySortedBy atom_cmp these.now }
    ensures { result.items ≡ filter (λ a. not (is_among these.now a)) fluents.items }
{
    fluents.retain(|fluent| !has(these, fluent));
    fluents
}

/// Whether the fluent is one of these, which are in order.
fn has(these: &[Atom], fluent: &Atom) -> bool
    requires { IsStrictlySortedBy atom_cmp these.now }
    ensures { result ≡ is_among these.now fluent.now }
{
    these.binary_search(fluent).is_ok()
}
