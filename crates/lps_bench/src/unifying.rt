//! How often terms are unified.

use crate::terms::{nested, pair};
use lps_terms::Term;
use lps_unify::Bindings;
use std::alloc::{AllocError, Global};

/// Whether the terms have a unifier. The bindings are as before.
fn are_unified(bindings: &mut Bindings, left: &Term, right: &Term) -> Result<bool, AllocError> {
    if !bindings.has(left) || !bindings.has(right) {
        return Ok(false);
    }
    let mark = bindings.mark();
    let found = bindings.unify(left, right)?;
    bindings.undo_to(&mark);
    Ok(found)
}

/// Unifies two terms of 1,024 symbols, one of them with a variable inside, and takes it back, so many times. Answers how
/// often that succeeded.
pub fn unify_large(alloc: Global, count: u32) -> Result<u32, AllocError> {
    let left = nested(alloc, 1023, Term::Var(0))?;
    let right = nested(alloc, 1023, Term::Int(1))?;
    let mut bindings = Bindings::new(alloc, 1)?;
    let mut unified = 0u32;
    for _ in 0..count {
        if are_unified(&mut bindings, &left, &right)? {
            unified = unified.saturating_add(1);
        }
    }
    Ok(unified)
}

/// Unifies the list of the variables 0, 1, .. with the list of the pairs of 1 and 1, of 2 and 2, .., so many of each. The
/// binding of variable 0 stands for a term of 2 to the count symbols. Answers 1 where that succeeded, and else 0.
pub fn unify_doubling(alloc: Global, count: u32) -> Result<u32, AllocError> {
    let mut bindings = Bindings::new(alloc, count.saturating_add(1))?;
    let mut left = Term::Int(0);
    let mut right = Term::Int(0);
    for number in (0..count).rev() {
        left = pair(alloc, Term::Var(number), left)?;
        let twice = pair(alloc, Term::Var(number + 1), Term::Var(number + 1))?;
        right = pair(alloc, twice, right)?;
    }
    Ok(u32::from(are_unified(&mut bindings, &left, &right)?))
}
