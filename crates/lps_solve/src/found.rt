ghost use Rattle.std.specs.Prelude.{◌≡◌, ◌≤◌, ◌<◌, ◌+◌, ◌^◌, [], IfOk, IfSome, OnOk, map};
ghost use Rattle.std.specs.BTreeSet.{IsOrdered};
ghost use Rattle.std.specs.Cmp.Lexicographic.{slice_cmp};
ghost use Rattle.lps_terms.specs.Order.{term_cmp};
ghost use Rattle.lps_terms.specs.Put.{put};
ghost use Rattle.lps_terms.specs.Symbols.{symbols_of_all};
ghost use Rattle.lps_model.specs.VariableLists.{args_vars};
ghost use Rattle.lps_facts.specs.Facts.{members};
ghost use Rattle.lps_unify.specs.Bindings.{count_of, standing};
ghost use Rattle.lps_unify.specs.Unified.{AreWithin};
ghost use Rattle.lps_solve.specs.Found.{Gains, IsFactFor, IsResolvedRow, IsRowOf};

use crate::ground::are_ground;
use crate::row::Row;
use crate::size::{MOST_SYMBOLS, symbols_of_all};
use lps_facts::Facts;
use lps_terms::{Atom, Term, Values, atom_symbols, copy_atom};
use lps_unify::Bindings;
use sqlite_items::Items;
use std::alloc::{AllocError, Global};
use std::collections::BTreeSet;

/// Adds the arguments of the facts that are instances of the goal and have at most 1,024 symbols.
pub(crate) fn add_facts(
    alloc: Global,
    facts: &Facts,
    goal: &Atom,
    found: &mut BTreeSet<Row>,
) -> Result<(), AllocError>
    ensures { OnOk result (Gains found.old.keys found.new.keys (IsFactFor (members facts.now) goal.now)) }
{
    let matching = facts.matching(alloc, goal)?;
    for fact in matching.as_slice() {
        add_fact(alloc, fact, found)?;
    }
    Ok(())
}

fn add_fact(alloc: Global, fact: &Atom, found: &mut BTreeSet<Row>) -> Result<(), AllocError>
    ensures { OnOk result (Gains found.old.keys found.new.keys (IsRowOf fact.now)) }
{
    if atom_symbols(fact) > MOST_SYMBOLS {
        return Ok(());
    }
    let copy = copy_atom(alloc, fact)?;
    insert(found, Row::new(copy.args))?;
    Ok(())
}

/// Adds the wanted terms with the bindings put in, where they are ground, and have at most 1,024 symbols each and `room`
/// symbols together. With the bindings put in they have no variables.
pub(crate) fn collect(
    alloc: Global,
    wanted: &[Term],
    room: u64,
    bindings: &Bindings,
    found: &mut BTreeSet<Row>,
) -> Result<(), AllocError>
    requires within { AreWithin (count_of bindings.now) wanted.now }
    requires closed { args_vars (map (put (standing bindings.now).value) wanted.now) ≡ [] }
    ensures { OnOk result (Gains found.old.keys found.new.keys (IsResolvedRow u64.MAX room bindings.now wanted.now)) }
{
    bindings.lawful();
    let mut terms = Items::new(alloc);
    for term in wanted {
        if !bindings.fits(term) {
            return Ok(());
        }
        terms.push(bindings.resolve(term)?)?;
    }
    if !are_ground(terms.as_slice()) {
        return Ok(());
    }
    if symbols_of_all(terms.as_slice()) > room {
        return Ok(());
    }
    insert(found, Row::new(terms))?;
    Ok(())
}

fn insert(found: &mut BTreeSet<Row>, row: Row) -> Result<(), AllocError>
    ensures { OnOk result (Gains found.old.keys found.new.keys (λ x. x ≡ row)) }
{
    found.insert(row)?;
    Ok(())
}

/// The rows of a set, in order.
pub(crate) fn rows_of(alloc: Global, found: BTreeSet<Row>) -> Result<Items<Row>, AllocError>
    ensures { IfOk result (λ rows. rows ≡ found.keys) }
{
    let mut rows = Vec::new(alloc);
    for row in found {
        rows.push(row)?;
    }
    Ok(Items::from_vec(rows))
}

/// The rows of a set as values, in order.
pub(crate) fn values_of(alloc: Global, found: BTreeSet<Row>) -> Result<Vec<Values>, AllocError>
    ensures all { IfOk result (λ values. map (λ v. v.0) values.items ≡ found.keys) }
    ensures sorted { IsOrdered (slice_cmp term_cmp) found }
{
    let _count = found.len();
    let mut values = Vec::new(alloc);
    for row in found {
        values.push(Values(row.into_terms()))?;
    }
    Ok(values)
}

/// So many variables more, where there are numbers for them.
pub(crate) fn room_for(count: usize, more: u64) -> Option<u32>
    ensures { IfSome result (λ variables. (variables ≡ more) × (count + variables < 2 ^ 32)) }
{
    if count < 4294967296 && more < 4294967296 - count as u64 {
        Some(more as u32)
    } else {
        None
    }
}
