ghost use Rattle.std.specs.Prelude.{◌≡◌, ◌≤◌, ◌<◌, ◌+◌, IfOk, MatchOption};
ghost use Rattle.lps_terms.specs.Symbols.{symbols_of};
ghost use Rattle.lps_unify.specs.Weights.{IsWithin};
ghost use Rattle.lps_unify.specs.Bindings.{count_of, resolved};

use crate::bindings::Bindings;
use lps_terms::Term;
use sqlite_items::Items;
use std::alloc::{AllocError, Global};

/// The term with the bindings put in.
#[cycle(resolve)]
pub(crate) fn resolve_term(
    alloc: Global,
    bindings: &Bindings,
    term: &Term,
) -> Result<Term, AllocError>
    requires { IsWithin (count_of bindings.now) term.now }
    ensures { IfOk result (λ found. found ≡ resolved bindings.now term.now) }
{
    match term {
        Term::Int(value) => Ok(Term::Int(*value)),
        Term::Sym(name) => Ok(Term::Sym(name.copy(alloc)?)),
        Term::App(name, args) => {
            let name = name.copy(alloc)?;
            let mut copies = Vec::new(alloc);
            for arg in args.as_slice() {
                copies.push(resolve_term(alloc, bindings, arg)?)?;
            }
            Ok(Term::App(name, Items::from_vec(copies)))
        }
        Term::Var(variable) => resolve_variable(alloc, bindings, *variable),
    }
}

#[cycle(resolve)]
fn resolve_variable(alloc: Global, bindings: &Bindings, variable: u32) -> Result<Term, AllocError>
    requires { variable < count_of bindings.now }
    ensures { IfOk result (λ found. found ≡ resolved bindings.now (Term.Var variable)) }
{
    match bindings.bound(variable) {
        Some(term) => resolve_term(alloc, bindings, term),
        None => Ok(Term::Var(variable)),
    }
}

/// How many symbols of room are left after the term with the bindings put in, or none where it needs more.
#[cycle(room)]
pub(crate) fn room_after(bindings: &Bindings, term: &Term, room: u32) -> Option<u32>
    requires { IsWithin (count_of bindings.now) term.now }
    ensures { MatchOption result (room < symbols_of (resolved bindings.now term.now)) (λ left. left + symbols_of (resolved bindings.now term.now) ≡ room) }
{
    match term {
        Term::Int(_) => room.checked_sub(1),
        Term::Sym(_) => room.checked_sub(1),
        Term::App(_, args) => {
            let mut left = room.checked_sub(1)?;
            for arg in args.as_slice() {
                left = room_after(bindings, arg, left)?;
            }
            Some(left)
        }
        Term::Var(variable) => room_after_variable(bindings, *variable, room),
    }
}

#[cycle(room)]
fn room_after_variable(bindings: &Bindings, variable: u32, room: u32) -> Option<u32>
    requires { variable < count_of bindings.now }
    ensures { MatchOption result (room < symbols_of (resolved bindings.now (Term.Var variable))) (λ left. left + symbols_of (resolved bindings.now (Term.Var variable)) ≡ room) }
{
    match bindings.bound(variable) {
        Some(term) => room_after(bindings, term, room),
        None => room.checked_sub(1),
    }
}
