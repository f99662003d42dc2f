ghost use Rattle.std.specs.Prelude.{[], ◌∷◌, ◌≡◌, ◌++◌, ℕ, Bool, true, OnOk, IfOk, if◌then◌else◌};
ghost use Rattle.std.specs.BTreeMap.{IsOrdered};
ghost use Rattle.lps_terms.specs.declared.atom.Atom.{Atom};
ghost use Rattle.lps_terms.specs.Order.{atom_cmp};
ghost use Rattle.lps_facts.specs.Facts.{changed, is_among};
ghost use Rattle.lps_facts.specs.Matching.{IsInstance, IsPicked, IsSelection};
ghost use Rattle.lps_facts.specs.Trail.{knows, present};

use crate::beginning::{are_fixed, begins_as, least_atom};
use crate::change::Change;
use crate::matching::is_instance;
use lps_terms::{Atom, copy_atom};
use std::alloc::{AllocError, Global};
use std::collections::BTreeMap;

#[tactic(auto, using(crate::proofs::Present::found_present))]
/// Whether the fact has an entry that is present.
pub(crate) fn is_present(entries: &BTreeMap<Atom, bool>, fact: &Atom) -> bool
    requires { IsOrdered atom_cmp entries.now }
    ensures { result ≡ is_among (present entries.now.entries) fact.now }
{
    match entries.get(fact) {
        Some(present) => *present,
        None => false,
    }
}

/// Gives the fact an entry, where it has none yet. What is present stays.
pub(crate) fn make_room(
    alloc: Global,
    entries: &mut BTreeMap<Atom, bool>,
    fact: &Atom,
) -> Result<(), AllocError>
    requires { IsOrdered atom_cmp entries.now }
    ensures ordered { IsOrdered atom_cmp entries.new }
    ensures same { present entries.new.entries ≡ present entries.old.entries }
    ensures known { (q : Atom) → knows entries.old.entries q ≡ true → knows entries.new.entries q ≡ true }
    ensures room { OnOk result (knows entries.new.entries fact.now ≡ true) }
{
    if entries.contains_key(fact) {
        return Ok(());
    }
    entries.insert(copy_atom(alloc, fact)?, false)?;
    Ok(())
}

/// Makes a fact that has an entry present or absent.
pub(crate) fn set_present(entries: &mut BTreeMap<Atom, bool>, fact: &Atom, inserted: bool)
    requires room { knows entries.now.entries fact.now ≡ true }
    ensures ordered { IsOrdered atom_cmp entries.new }
    ensures changed { present entries.new.entries ≡ changed inserted fact.now (present entries.old.entries) }
    ensures known { (q : Atom) → knows entries.old.entries q ≡ true → knows entries.new.entries q ≡ true }
{
    if let Some(present) = entries.get_mut(fact) {
        *present = inserted;
    }
}

/// Takes the entry of a fact away, where the fact is absent. What is present stays.
fn forget(entries: &mut BTreeMap<Atom, bool>, fact: &Atom)
    requires { IsOrdered atom_cmp entries.now }
    ensures ordered { IsOrdered atom_cmp entries.new }
    ensures same { present entries.new.entries ≡ present entries.old.entries }
{
    if !is_present(entries, fact) {
        entries.remove(fact);
    }
}

/// Takes the entries of the changed facts away that are absent. What is present stays.
pub(crate) fn forget_absent(entries: &mut BTreeMap<Atom, bool>, changes: &[Change])
    requires { IsOrdered atom_cmp entries.now }
    ensures ordered { IsOrdered atom_cmp entries.new }
    ensures same { present entries.new.entries ≡ present entries.old.entries }
{
    for change in changes {
        forget(entries, &change.fact);
    }
}

/// Copies of the facts that are present, in order.
pub(crate) fn copy_present(
    alloc: Global,
    entries: &BTreeMap<Atom, bool>,
) -> Result<Vec<Atom>, AllocError>
    ensures { IfOk result (λ facts. facts.items ≡ present entries.now.entries) }
{
    let mut facts = Vec::new(alloc);
    for (fact, present) in entries.iter() {
        if *present {
            facts.push(copy_atom(alloc, fact)?)?;
        }
    }
    Ok(facts)
}

/// Adds a copy of the fact, where it is an instance of the pattern.
fn pick(alloc: Global, pattern: &Atom, fact: &Atom, facts: &mut Vec<Atom>) -> Result<(), AllocError>
    ensures { OnOk result (IsPicked (IsInstance pattern.now) fact.now facts.old.items facts.new.items) }
{
    if is_instance(alloc, pattern, fact)? {
        facts.push(copy_atom(alloc, fact)?)?;
        return Ok(());
    }
    Ok(())
}

/// Copies of the facts that are present and are instances of the pattern, in order. A pattern without variables is looked
/// up.
pub(crate) fn copy_matching(
    alloc: Global,
    entries: &BTreeMap<Atom, bool>,
    pattern: &Atom,
) -> Result<Vec<Atom>, AllocError>
    requires { IsOrdered atom_cmp entries.now }
    ensures { IfOk result (λ facts. IsSelection (IsInstance pattern.now) (present entries.now.entries) facts.items) }
{
    if are_fixed(pattern.args.as_slice()) {
        return copy_same(alloc, entries, pattern);
    }
    copy_instances(alloc, entries, pattern)
}

/// A copy of the fact, where it is present.
fn copy_same(
    alloc: Global,
    entries: &BTreeMap<Atom, bool>,
    fact: &Atom,
) -> Result<Vec<Atom>, AllocError>
    requires { IsOrdered atom_cmp entries.now }
    ensures { IfOk result (λ facts. facts.items ≡ (if is_among (present entries.now.entries) fact.now then fact.now ∷ [] else [])) }
{
    let mut facts = Vec::new(alloc);
    if is_present(entries, fact) {
        facts.push(copy_atom(alloc, fact)?)?;
    }
    Ok(facts)
}

/// Copies of the facts that are present and are instances of the pattern, in order. Only the entries are walked that begin
/// as the pattern does, which lie side by side.
fn copy_instances(
    alloc: Global,
    entries: &BTreeMap<Atom, bool>,
    pattern: &Atom,
) -> Result<Vec<Atom>, AllocError>
    requires { IsOrdered atom_cmp entries.now }
    ensures { IfOk result (λ facts. IsSelection (IsInstance pattern.now) (present entries.now.entries) facts.items) }
{
    let mut facts = Vec::new(alloc);
    let least = least_atom(alloc, pattern)?;
    for (fact, present) in entries.range(least..) {
        if !begins_as(pattern, fact) {
            return Ok(facts);
        }
        if *present {
            pick(alloc, pattern, fact, &mut facts)?;
        }
    }
    Ok(facts)
}
