//! Places by name, and by name and term.
ghost use Rattle.std.specs.Prelude.{◌≡◌, IfOk};
ghost use Rattle.std.specs.BTreeMap.{get};
ghost use Rattle.lps_terms.specs.Order.{term_cmp};
ghost use Rattle.lps_index.specs.Table.{IsWithBoth, IsWithName, IsWithTerm, is_last, places_at, places_of, places_or_none, with_place};

use indexmap::IndexMap;
use lps_terms::{Name, Term, copy_term};
use std::alloc::{AllocError, Global};
use std::collections::BTreeMap;

pub(crate) type ByName = IndexMap<Name, Vec<usize>>;

pub(crate) type ByTerm = BTreeMap<Term, Vec<usize>>;

pub(crate) type ByNameAndTerm = IndexMap<Name, ByTerm>;

/// The places with one more, which is not noted twice in a row.
fn with_place(mut places: Vec<usize>, place: usize) -> Result<Vec<usize>, AllocError>
    ensures { IfOk result (λ more. more.items ≡ with_place places.items place) }
{
    if is_last(places.as_slice(), place) {
        return Ok(places);
    }
    places.push(place)?;
    Ok(places)
}

/// Whether the last of the places is this one.
fn is_last(places: &[usize], place: usize) -> bool
    ensures { result ≡ is_last places.now place }
{
    places.len() > 0 && places[places.len() - 1] == place
}

/// The table with one place more for a name.
pub(crate) fn with_name(
    alloc: Global,
    mut table: ByName,
    name: &Name,
    place: usize,
) -> Result<ByName, AllocError>
    ensures { IfOk result (λ new. IsWithName name.now place table.entries new.entries) }
{
    let name = name.copy(alloc)?;
    let places = match table.swap_remove(&name) {
        Some(places) => places,
        None => Vec::new(alloc),
    };
    table.insert(name, with_place(places, place)?)?;
    Ok(table)
}

/// The table with one place more for a term.
fn with_term(
    alloc: Global,
    mut table: ByTerm,
    term: &Term,
    place: usize,
) -> Result<ByTerm, AllocError>
    ensures { IfOk result (λ new. IsWithTerm term.now place table new) }
{
    let found = table.remove(term);
    let places = with_place(found_or_none(alloc, found), place)?;
    let term = copy_term(alloc, term)?;
    table.insert(term, places)?;
    Ok(table)
}

/// The places that were found, or none.
fn found_or_none(alloc: Global, found: Option<Vec<usize>>) -> Vec<usize>
    ensures { result.items ≡ places_or_none found }
{
    match found {
        Some(places) => places,
        None => Vec::new(alloc),
    }
}

/// The table with one place more for a name and a term.
pub(crate) fn with_name_and_term(
    alloc: Global,
    mut table: ByNameAndTerm,
    name: &Name,
    term: &Term,
    place: usize,
) -> Result<ByNameAndTerm, AllocError>
    ensures { IfOk result (λ new. IsWithBoth name.now term.now place table.entries new.entries) }
{
    let name = name.copy(alloc)?;
    let places = match table.swap_remove(&name) {
        Some(places) => places,
        None => BTreeMap::new(alloc),
    };
    table.insert(name, with_term(alloc, places, term, place)?)?;
    Ok(table)
}

/// The places of a name.
pub(crate) fn places_of<'a>(table: &'a ByName, name: &Name) -> &'a [usize]
    ensures { result.now ≡ places_of table.now.entries name.now }
{
    match table.get(name) {
        Some(places) => places.as_slice(),
        None => &[],
    }
}

/// The places of a name and a term.
pub(crate) fn places_at<'a>(table: &'a ByNameAndTerm, name: &Name, term: &Term) -> &'a [usize]
    ensures { result.now ≡ places_at table.now.entries name.now term.now }
{
    match table.get(name) {
        Some(by_term) => places_in(by_term, term),
        None => &[],
    }
}

/// The places of a term.
fn places_in<'a>(table: &'a ByTerm, term: &Term) -> &'a [usize]
    ensures { result.now ≡ places_or_none (get term_cmp table.now term.now) }
{
    match table.get(term) {
        Some(places) => places.as_slice(),
        None => &[],
    }
}
