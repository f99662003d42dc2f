//! Where denials are cut, and their items as conditions.
ghost use Rattle.std.specs.Prelude.{◌≡◌, ◌≤◌, ◌++◌, IfOk, OnOk, length};
ghost use Rattle.std.specs.List.{flat_map, list_any};
ghost use Rattle.lps_precond.specs.Cut.{asks_derived, cond_of, conds_of, count_early, events_of, is_late, second_in, touch_of};

use lps_model::Accepted;
use lps_terms::{Cond, Item, Kind, Lit, copy_atom, copy_built, copy_lit};
use sqlite_items::Items;
use std::alloc::{AllocError, Global};

/// The second time of the first item that has two.
pub(crate) fn second_time(items: &[Item]) -> Option<u32>
    ensures { result ≡ second_in items.now }
{
    for item in items {
        if let Item::Span(_, _, to) = item {
            return Some(to.0);
        }
    }
    None
}

/// Whether the item is at the second time.
fn is_at(second: Option<u32>, item: &Item) -> bool
    ensures { result ≡ is_late second item.now }
{
    match (second, item) {
        (Some(second), Item::At(_, time)) => time.0 == second,
        _ => false,
    }
}

/// How many items stand before the first one that is at the second time.
pub(crate) fn early_items(second: Option<u32>, items: &[Item]) -> usize
    ensures count { result ≡ count_early second items.now }
    ensures within { result ≤ length items.now }
{
    for (count, item) in items.iter().enumerate() {
        if is_at(second, item) {
            return count;
        }
    }
    items.len()
}

/// The items as conditions on a state, for which what is to happen is none.
pub(crate) fn conditions(alloc: Global, items: &[Item]) -> Result<Items<Cond>, AllocError>
    ensures { IfOk result (λ conds. conds ≡ conds_of items.now) }
{
    let mut conds = Vec::new(alloc);
    for item in items {
        add_condition(alloc, item, &mut conds)?;
    }
    Ok(Items::from_vec(conds))
}

/// Adds the item as a condition.
fn add_condition(alloc: Global, item: &Item, conds: &mut Vec<Cond>) -> Result<(), AllocError>
    ensures { OnOk result (conds.new.items ≡ conds.old.items ++ cond_of item.now) }
{
    match item {
        Item::At(lit, _) => conds.push(Cond::Lit(copy_lit(alloc, lit)?))?,
        Item::Bare(lit) => conds.push(Cond::Lit(copy_lit(alloc, lit)?))?,
        Item::Built(built) => conds.push(Cond::Built(copy_built(alloc, built)?))?,
        Item::Span(_, _, _) => {}
        Item::Con(_) => {}
    }
    Ok(())
}

/// What is to happen, as conditions on events.
pub(crate) fn events(alloc: Global, items: &[Item]) -> Result<Items<Cond>, AllocError>
    ensures { IfOk result (λ conds. conds ≡ events_of items.now) }
{
    let mut conds = Vec::new(alloc);
    for item in items {
        if let Item::Span(atom, _, _) = item {
            conds.push(Cond::Lit(Lit {
                negated: false,
                atom: copy_atom(alloc, atom)?,
            }))?;
        }
    }
    Ok(Items::from_vec(conds))
}

/// The fluents that the conditions ask for, each to be true.
pub(crate) fn touches(
    alloc: Global,
    text: &Accepted,
    conds: &[Cond],
) -> Result<Items<Cond>, AllocError>
    ensures { IfOk result (λ touches. touches ≡ flat_map (touch_of text.now) conds.now) }
{
    let mut touches = Vec::new(alloc);
    for cond in conds {
        add_touch(alloc, text, cond, &mut touches)?;
    }
    Ok(Items::from_vec(touches))
}

/// Adds the fluent that the condition asks for, if it does.
fn add_touch(
    alloc: Global,
    text: &Accepted,
    cond: &Cond,
    touches: &mut Vec<Cond>,
) -> Result<(), AllocError>
    ensures { OnOk result (touches.new.items ≡ touches.old.items ++ touch_of text.now cond.now) }
{
    let Cond::Lit(lit) = cond else {
        return Ok(());
    };
    match text.kind(&lit.atom.name) {
        Some(Kind::Fluent) => touches.push(Cond::Lit(Lit {
            negated: false,
            atom: copy_atom(alloc, &lit.atom)?,
        }))?,
        _ => {}
    }
    Ok(())
}

/// Whether one of the conditions asks for a derived predicate.
pub(crate) fn ask_derived(text: &Accepted, conds: &[Cond]) -> bool
    ensures { result ≡ list_any (asks_derived text.now) conds.now }
{
    for cond in conds {
        if is_derived(text, cond) {
            return true;
        }
    }
    false
}

/// Whether the condition does.
fn is_derived(text: &Accepted, cond: &Cond) -> bool
    ensures { result ≡ asks_derived text.now cond.now }
{
    match cond {
        Cond::Lit(lit) => matches!(text.kind(&lit.atom.name), Some(Kind::Derived)),
        Cond::Built(_) => false,
    }
}
