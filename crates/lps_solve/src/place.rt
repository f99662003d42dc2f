ghost use Rattle.std.specs.Prelude.{◌≡◌, ◌<◌, ◌≤◌, ◌+◌, IfOk, MatchOption, map};
ghost use Rattle.std.specs.List.{AllByRecursion};
ghost use Rattle.lps_terms.specs.Put.{put, put_atom};
ghost use Rattle.lps_terms.specs.Symbols.{atom_symbols_of, symbols_of, symbols_of_all};
ghost use Rattle.lps_model.specs.VariableLists.{args_vars, atom_vars, built_vars, cond_vars, expr_vars, term_vars};
ghost use Rattle.lps_derivation.specs.Expressions.{expr_symbols_of, put_expr};
ghost use Rattle.lps_derivation.specs.Instances.{IsSmallBuilt, IsSmallCond, put_built, put_cond};
ghost use Rattle.lps_unify.specs.Bindings.{count_of};
ghost use Rattle.lps_solve.specs.Placed.{AreBelow, applied_to, shift, values_in};

use crate::size::{MOST_SYMBOLS, expr_symbols};
use lps_terms::{Args, Atom, Expr, Op, Term, atom_symbols};
use lps_unify::Bindings;
use sqlite_items::{Boxed, Items};
use std::alloc::{AllocError, Global};

/// A term with its variables counted from `base`.
pub(crate) fn shifted(alloc: Global, base: u32, term: &Term) -> Result<Term, AllocError>
    ensures { IfOk result (λ found. found ≡ put (shift base) term.now) }
{
    match term {
        Term::Int(value) => Ok(Term::Int(*value)),
        Term::Sym(name) => Ok(Term::Sym(name.copy(alloc)?)),
        Term::App(name, args) => {
            let name = name.copy(alloc)?;
            let mut copies = Items::new(alloc);
            for arg in args.as_slice() {
                copies.push(shifted(alloc, base, arg)?)?;
            }
            Ok(Term::App(name, copies))
        }
        Term::Var(variable) => match base.checked_add(*variable) {
            Some(variable) => Ok(Term::Var(variable)),
            None => Err(AllocError),
        },
    }
}

/// Terms with their variables counted from `base`.
pub(crate) fn shifted_all(alloc: Global, base: u32, terms: &[Term]) -> Result<Args, AllocError>
    ensures { IfOk result (λ found. found ≡ map (put (shift base)) terms.now) }
{
    let mut copies = Items::new(alloc);
    for term in terms {
        copies.push(shifted(alloc, base, term)?)?;
    }
    Ok(copies)
}

/// A term with its variables counted from `base`, and the bindings put in; none where that has more than 1,024 symbols.
pub(crate) fn place_term(
    alloc: Global,
    bindings: &Bindings,
    base: u32,
    term: &Term,
) -> Result<Option<Term>, AllocError>
    requires { AreBelow (count_of bindings.now) base (term_vars term.now) }
    ensures { IfOk result (λ found. MatchOption found (1024 < symbols_of (put (values_in bindings.now base) term.now)) (λ x. (x ≡ put (values_in bindings.now base) term.now) × (symbols_of x ≤ 1024))) }
{
    let term = shifted(alloc, base, term)?;
    if !bindings.fits(&term) {
        return Ok(None);
    }
    Ok(Some(bindings.resolve(&term)?))
}

/// Terms with their variables counted from `base`, and the bindings put in; none where one of them has more than 1,024
/// symbols then.
fn place_args(
    alloc: Global,
    bindings: &Bindings,
    base: u32,
    terms: &[Term],
) -> Result<Option<Args>, AllocError>
    requires { AreBelow (count_of bindings.now) base (args_vars terms.now) }
    ensures { IfOk result (λ found. MatchOption found (1024 < symbols_of_all (map (put (values_in bindings.now base)) terms.now)) (λ xs. xs ≡ map (put (values_in bindings.now base)) terms.now)) }
{
    let mut copies = Items::new(alloc);
    for term in terms {
        match place_term(alloc, bindings, base, term)? {
            Some(copy) => copies.push(copy)?,
            None => return Ok(None),
        }
    }
    Ok(Some(copies))
}

/// An atom with its variables counted from `base`, and the bindings put in; none where that has more than 1,024 symbols.
pub(crate) fn place_atom(
    alloc: Global,
    bindings: &Bindings,
    base: u32,
    atom: &Atom,
) -> Result<Option<Atom>, AllocError>
    requires { AreBelow (count_of bindings.now) base (atom_vars atom.now) }
    ensures { IfOk result (λ found. MatchOption found (1024 < atom_symbols_of (put_atom (values_in bindings.now base) atom.now)) (λ a. (a ≡ put_atom (values_in bindings.now base) atom.now) × (atom_symbols_of a ≤ 1024))) }
{
    let name = atom.name.copy(alloc)?;
    match place_args(alloc, bindings, base, atom.args.as_slice())? {
        Some(args) => {
            let atom = Atom { name, args };
            if atom_symbols(&atom) <= MOST_SYMBOLS {
                Ok(Some(atom))
            } else {
                Ok(None)
            }
        }
        None => Ok(None),
    }
}

/// An expression with its variables counted from `base`, and the bindings put in; none where one of its leaves has more
/// than 1,024 symbols then.
fn place_leaves(
    alloc: Global,
    bindings: &Bindings,
    base: u32,
    expr: &Expr,
) -> Result<Option<Expr>, AllocError>
    requires { AreBelow (count_of bindings.now) base (expr_vars expr.now) }
    ensures { IfOk result (λ found. MatchOption found (1024 < expr_symbols_of (put_expr (values_in bindings.now base) expr.now)) (λ x. x ≡ put_expr (values_in bindings.now base) expr.now)) }
{
    match expr {
        Expr::Leaf(term) => match place_term(alloc, bindings, base, term)? {
            Some(term) => Ok(Some(Expr::Leaf(term))),
            None => Ok(None),
        },
        Expr::Apply(op, left, right) => {
            let left = place_leaves(alloc, bindings, base, left.get())?;
            let right = place_leaves(alloc, bindings, base, right.get())?;
            Ok(applied(alloc, *op, left, right)?)
        }
    }
}

/// The operation on two operands, where there are both.
fn applied(
    alloc: Global,
    op: Op,
    left: Option<Expr>,
    right: Option<Expr>,
) -> Result<Option<Expr>, AllocError>
    ensures { IfOk result (λ found. found ≡ applied_to op left right) }
{
    match left {
        Some(left) => match right {
            Some(right) => {
                let left = Boxed::new(alloc, left)?;
                Ok(Some(Expr::Apply(op, left, Boxed::new(alloc, right)?)))
            }
            None => Ok(None),
        },
        None => Ok(None),
    }
}

/// An expression with its variables counted from `base`, and the bindings put in; none where that has more than 1,024
/// symbols.
pub(crate) fn place_expr(
    alloc: Global,
    bindings: &Bindings,
    base: u32,
    expr: &Expr,
) -> Result<Option<Expr>, AllocError>
    requires { AreBelow (count_of bindings.now) base (expr_vars expr.now) }
    ensures { IfOk result (λ found. MatchOption found (1024 < expr_symbols_of (put_expr (values_in bindings.now base) expr.now)) (λ x. (x ≡ put_expr (values_in bindings.now base) expr.now) × (expr_symbols_of x ≤ 1024))) }
{
    match place_leaves(alloc, bindings, base, expr)? {
        Some(expr) => {
            if expr_symbols(&expr) <= MOST_SYMBOLS {
                Ok(Some(expr))
            } else {
                Ok(None)
            }
        }
        None => Ok(None),
    }
}
