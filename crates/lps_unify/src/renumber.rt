ghost use Rattle.std.specs.Prelude.{◌≡◌, ◌≤◌, IfOk, OnOk, length, map, nat_eq};
ghost use Rattle.std.specs.List.{position};
ghost use Rattle.lps_terms.specs.Put.{put};
ghost use Rattle.lps_unify.specs.Canonical.{canonical_of, first_seen, place_of, renumbered, variables_of, variables_of_all, with_variable};

use lps_terms::Term;
use sqlite_items::Items;
use std::alloc::{AllocError, Global};

/// The terms with their variables numbered from 0 in the order in which they first occur, over the whole list.
pub fn canonical(alloc: Global, terms: &[Term]) -> Result<Vec<Term>, AllocError>
    ensures { IfOk result (λ copies. copies.items ≡ canonical_of terms.now) }
{
    let mut seen = Vec::new(alloc);
    see_all(terms, &mut seen)?;
    let seen = seen;
    copy_all_renumbered(alloc, terms, seen.as_slice())
}

/// Adds those of the variables of the term that are new.
#[cycle(see)]
fn see(term: &Term, seen: &mut Vec<u32>) -> Result<(), AllocError>
    ensures { OnOk result (seen.new.items ≡ first_seen seen.old.items (variables_of term.now)) }
{
    match term {
        Term::Int(_) => Ok(()),
        Term::Sym(_) => Ok(()),
        Term::App(_, args) => see_all(args.as_slice(), seen),
        Term::Var(variable) => see_variable(*variable, seen),
    }
}

#[cycle(see)]
fn see_all(terms: &[Term], seen: &mut Vec<u32>) -> Result<(), AllocError>
    ensures { OnOk result (seen.new.items ≡ first_seen seen.old.items (variables_of_all terms.now)) }
{
    for term in terms {
        see(term, seen)?;
    }
    Ok(())
}

fn see_variable(variable: u32, seen: &mut Vec<u32>) -> Result<(), AllocError>
    ensures { OnOk result (seen.new.items ≡ with_variable seen.old.items variable) }
{
    if place_of(seen.as_slice(), variable) < seen.len() {
        return Ok(());
    }
    seen.push(variable)?;
    Ok(())
}

fn place_of(seen: &[u32], variable: u32) -> usize
    ensures { result ≡ place_of seen.now variable }
{
    match first_place(seen, variable) {
        Some(place) => place,
        None => seen.len(),
    }
}

fn first_place(seen: &[u32], variable: u32) -> Option<usize>
    ensures { result ≡ position (λ w. nat_eq w variable) seen.now }
{
    seen.iter().position(|other| *other == variable)
}

/// The term with the place of each variable for it.
#[cycle(copy)]
fn copy_renumbered(alloc: Global, term: &Term, seen: &[u32]) -> Result<Term, AllocError>
    ensures { IfOk result (λ copy. copy ≡ put (renumbered seen.now) term.now) }
{
    match term {
        Term::Int(value) => Ok(Term::Int(*value)),
        Term::Sym(name) => Ok(Term::Sym(name.copy(alloc)?)),
        Term::App(name, args) => {
            let name = name.copy(alloc)?;
            let copies = copy_all_renumbered(alloc, args.as_slice(), seen)?;
            Ok(Term::App(name, Items::from_vec(copies)))
        }
        Term::Var(variable) => renumber_variable(*variable, seen),
    }
}

#[cycle(copy)]
fn copy_all_renumbered(alloc: Global, terms: &[Term], seen: &[u32]) -> Result<Vec<Term>, AllocError>
    ensures { IfOk result (λ copies. copies.items ≡ map (put (renumbered seen.now)) terms.now) }
{
    let mut copies = Vec::new(alloc);
    for term in terms {
        copies.push(copy_renumbered(alloc, term, seen)?)?;
    }
    Ok(copies)
}

/// The place of a variable as a variable. There are no more places than numbers of variables.
fn renumber_variable(variable: u32, seen: &[u32]) -> Result<Term, AllocError>
    ensures { IfOk result (λ found. found ≡ renumbered seen.now variable) }
{
    match u32::try_from(place_of(seen, variable)) {
        Ok(place) => Ok(Term::Var(place)),
        Err(_) => Err(AllocError),
    }
}
