//! The terms that are unified.
ghost use Rattle.std.specs.Prelude.{◌≤◌, length};

use lps_terms::{Name, Term, args_of};
use std::alloc::{AllocError, Global};

/// The term `s(..)` of a function of one argument, or of two.
fn function(alloc: Global, args: Vec<Term>) -> Result<Term, AllocError>
    requires { length args.items ≤ 64 }
{
    let name = Name::new(alloc, b"s")?;
    Ok(match name {
        Some(name) => Term::App(name, args_of(args)),
        None => Term::Int(0),
    })
}

/// The inner term in so many functions of one argument.
pub fn nested(alloc: Global, functions: u32, inner: Term) -> Result<Term, AllocError> {
    let mut term = inner;
    for _ in 0..functions {
        term = function(alloc, vec![in alloc; term]?)?;
    }
    Ok(term)
}

/// A pair of two terms.
pub fn pair(alloc: Global, left: Term, right: Term) -> Result<Term, AllocError> {
    function(alloc, vec![in alloc; left, right]?)
}
