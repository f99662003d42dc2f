ghost use Rattle.std.specs.Prelude.{◌≡◌, IfOk};

use crate::atom::Atom;
use crate::built::Built;
use crate::cond::Cond;
use crate::expr::Expr;
use crate::item::Item;
use crate::lit::Lit;
use crate::term::{Args, Term};
use sqlite_items::{Boxed, Items};
use std::alloc::{AllocError, Global};

/// A term equal to this one.
#[cycle(copy)]
pub fn copy_term(alloc: Global, term: &Term) -> Result<Term, AllocError>
    ensures { IfOk result (λ copy. copy ≡ term.now) }
{
    match term {
        Term::Int(value) => Ok(Term::Int(*value)),
        Term::Sym(name) => Ok(Term::Sym(name.copy(alloc)?)),
        Term::App(name, args) => {
            let name = name.copy(alloc)?;
            Ok(Term::App(name, copy_args(alloc, args)?))
        }
        Term::Var(number) => Ok(Term::Var(*number)),
    }
}

#[cycle(copy)]
fn copy_args(alloc: Global, args: &Args) -> Result<Args, AllocError>
    ensures { IfOk result (λ copies. copies ≡ args.now) }
{
    let mut copies = Vec::new(alloc);
    for arg in args.as_slice() {
        copies.push(copy_term(alloc, arg)?)?;
    }
    Ok(Items::from_vec(copies))
}

/// An atom equal to this one.
pub fn copy_atom(alloc: Global, atom: &Atom) -> Result<Atom, AllocError>
    ensures { IfOk result (λ copy. copy ≡ atom.now) }
{
    let name = atom.name.copy(alloc)?;
    let args = copy_args(alloc, &atom.args)?;
    Ok(Atom { name, args })
}

/// An item equal to this one.
pub fn copy_item(alloc: Global, item: &Item) -> Result<Item, AllocError>
    ensures { IfOk result (λ copy. copy ≡ item.now) }
{
    match item {
        Item::At(lit, time) => Ok(Item::At(copy_lit(alloc, lit)?, *time)),
        Item::Bare(lit) => Ok(Item::Bare(copy_lit(alloc, lit)?)),
        Item::Built(built) => Ok(Item::Built(copy_built(alloc, built)?)),
        Item::Span(atom, from, to) => Ok(Item::Span(copy_atom(alloc, atom)?, *from, *to)),
        Item::Con(con) => Ok(Item::Con(*con)),
    }
}

/// Conditions equal to these.
pub fn copy_conds(alloc: Global, conds: &[Cond]) -> Result<Items<Cond>, AllocError>
    ensures { IfOk result (λ copies. copies ≡ conds.now) }
{
    let mut copies = Vec::new(alloc);
    for cond in conds {
        copies.push(copy_cond(alloc, cond)?)?;
    }
    Ok(Items::from_vec(copies))
}

/// A condition equal to this one.
fn copy_cond(alloc: Global, cond: &Cond) -> Result<Cond, AllocError>
    ensures { IfOk result (λ copy. copy ≡ cond.now) }
{
    match cond {
        Cond::Lit(lit) => Ok(Cond::Lit(copy_lit(alloc, lit)?)),
        Cond::Built(built) => Ok(Cond::Built(copy_built(alloc, built)?)),
    }
}

/// A literal equal to this one.
pub fn copy_lit(alloc: Global, lit: &Lit) -> Result<Lit, AllocError>
    ensures { IfOk result (λ copy. copy ≡ lit.now) }
{
    let atom = copy_atom(alloc, &lit.atom)?;
    Ok(Lit {
        negated: lit.negated,
        atom,
    })
}

/// A built-in condition equal to this one.
pub fn copy_built(alloc: Global, built: &Built) -> Result<Built, AllocError>
    ensures { IfOk result (λ copy. copy ≡ built.now) }
{
    match built {
        Built::Same(left, right) => {
            let left = copy_term(alloc, left)?;
            Ok(Built::Same(left, copy_term(alloc, right)?))
        }
        Built::Differ(left, right) => {
            let left = copy_term(alloc, left)?;
            Ok(Built::Differ(left, copy_term(alloc, right)?))
        }
        Built::Is(left, right) => {
            let left = copy_term(alloc, left)?;
            Ok(Built::Is(left, copy_expr(alloc, right)?))
        }
        Built::Compare(rel, left, right) => {
            let left = copy_expr(alloc, left)?;
            Ok(Built::Compare(*rel, left, copy_expr(alloc, right)?))
        }
    }
}

fn copy_expr(alloc: Global, expr: &Expr) -> Result<Expr, AllocError>
    ensures { IfOk result (λ copy. copy ≡ expr.now) }
{
    match expr {
        Expr::Leaf(term) => Ok(Expr::Leaf(copy_term(alloc, term)?)),
        Expr::Apply(op, left, right) => {
            let left = Boxed::new(alloc, copy_expr(alloc, left.get())?)?;
            let right = Boxed::new(alloc, copy_expr(alloc, right.get())?)?;
            Ok(Expr::Apply(*op, left, right))
        }
    }
}
