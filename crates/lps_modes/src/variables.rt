ghost use Rattle.std.specs.Prelude.{◌≡◌, ◌++◌, ◌∷◌, [], OnOk};
ghost use Rattle.lps_model.specs.VariableLists.{args_vars, atom_vars, built_vars, cond_vars, expr_vars, item_vars, step_times, term_vars};

use lps_terms::{Atom, Built, Cond, Expr, Item, Term};
use std::alloc::AllocError;

/// Appends the variables of a term, in written order.
#[cycle(terms)]
#[tactic(auto, using(crate::proofs::Terms::app_vars))]
pub fn append_term(term: &Term, out: &mut Vec<u32>) -> Result<(), AllocError>
    ensures { OnOk result (out.new.items ≡ out.old.items ++ term_vars term.now) }
{
    match term {
        Term::Int(_) => Ok(()),
        Term::Sym(_) => Ok(()),
        Term::App(_, args) => append_args(args.as_slice(), out),
        Term::Var(number) => push(*number, out),
    }
}

/// Appends the variables of terms.
#[cycle(terms)]
pub fn append_args(args: &[Term], out: &mut Vec<u32>) -> Result<(), AllocError>
    ensures { OnOk result (out.new.items ≡ out.old.items ++ args_vars args.now) }
{
    for arg in args {
        append_term(arg, out)?;
    }
    Ok(())
}

/// Appends one number.
pub fn push(number: u32, out: &mut Vec<u32>) -> Result<(), AllocError>
    ensures { OnOk result (out.new.items ≡ out.old.items ++ number ∷ []) }
{
    out.push(number)?;
    Ok(())
}

/// Appends the variables of an atom.
pub fn append_atom(atom: &Atom, out: &mut Vec<u32>) -> Result<(), AllocError>
    ensures { OnOk result (out.new.items ≡ out.old.items ++ atom_vars atom.now) }
{
    append_args(atom.args.as_slice(), out)
}

/// Appends the variables of an expression.
pub fn append_expr(expr: &Expr, out: &mut Vec<u32>) -> Result<(), AllocError>
    ensures { OnOk result (out.new.items ≡ out.old.items ++ expr_vars expr.now) }
{
    match expr {
        Expr::Leaf(term) => append_term(term, out),
        Expr::Apply(_, left, right) => {
            append_expr(left.get(), out)?;
            append_expr(right.get(), out)
        }
    }
}

/// Appends the variables of both terms.
pub fn append_terms(left: &Term, right: &Term, out: &mut Vec<u32>) -> Result<(), AllocError>
    ensures { OnOk result (out.new.items ≡ out.old.items ++ (term_vars left.now ++ term_vars right.now)) }
{
    append_term(left, out)?;
    append_term(right, out)
}

/// Appends the variables of both expressions.
pub fn append_exprs(left: &Expr, right: &Expr, out: &mut Vec<u32>) -> Result<(), AllocError>
    ensures { OnOk result (out.new.items ≡ out.old.items ++ (expr_vars left.now ++ expr_vars right.now)) }
{
    append_expr(left, out)?;
    append_expr(right, out)
}

/// Appends the variables of a built-in.
pub fn append_built(built: &Built, out: &mut Vec<u32>) -> Result<(), AllocError>
    ensures { OnOk result (out.new.items ≡ out.old.items ++ built_vars built.now) }
{
    match built {
        Built::Same(left, right) => append_terms(left, right, out),
        Built::Differ(left, right) => append_terms(left, right, out),
        Built::Is(left, right) => {
            append_term(left, out)?;
            append_expr(right, out)
        }
        Built::Compare(_, left, right) => append_exprs(left, right, out),
    }
}

/// Appends the variables of a condition.
pub fn append_cond(cond: &Cond, out: &mut Vec<u32>) -> Result<(), AllocError>
    ensures { OnOk result (out.new.items ≡ out.old.items ++ cond_vars cond.now) }
{
    match cond {
        Cond::Lit(lit) => append_atom(&lit.atom, out),
        Cond::Built(built) => append_built(built, out),
    }
}

/// Appends the variables of an item.
pub fn append_item(item: &Item, out: &mut Vec<u32>) -> Result<(), AllocError>
    ensures { OnOk result (out.new.items ≡ out.old.items ++ item_vars item.now) }
{
    match item {
        Item::At(lit, _) => append_atom(&lit.atom, out),
        Item::Bare(lit) => append_atom(&lit.atom, out),
        Item::Built(built) => append_built(built, out),
        Item::Span(atom, _, _) => append_atom(atom, out),
        Item::Con(_) => Ok(()),
    }
}

/// Appends the times of an item that is a step.
pub fn append_step_times(item: &Item, out: &mut Vec<u32>) -> Result<(), AllocError>
    ensures { OnOk result (out.new.items ≡ out.old.items ++ step_times item.now) }
{
    match item {
        Item::At(_, time) => push(time.0, out),
        Item::Bare(_) => Ok(()),
        Item::Built(_) => Ok(()),
        Item::Span(_, from, to) => {
            push(from.0, out)?;
            push(to.0, out)
        }
        Item::Con(_) => Ok(()),
    }
}
