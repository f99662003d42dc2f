ghost use Rattle.std.specs.Prelude.{◌≡◌, ◌<◌, OnOk};
ghost use Rattle.std.specs.List.{AllByRecursion, flat_map};
ghost use Rattle.lps_model.specs.VariableLists.{args_vars, built_vars, cond_vars, expr_vars, term_vars};
ghost use Rattle.lps_solve.specs.Answers.{with_vars};

use lps_terms::{Built, Cond, Expr, Term};
use std::alloc::AllocError;
use std::collections::BTreeSet;

/// A number above those of the variables of a term.
pub(crate) fn above_term(term: &Term) -> u64
    ensures { AllByRecursion (λ v. v < result) (term_vars term.now) }
{
    match term {
        Term::Int(_) => 0,
        Term::Sym(_) => 0,
        Term::App(_, args) => {
            let mut above = 0u64;
            for arg in args.as_slice() {
                above = above.max(above_term(arg));
            }
            above
        }
        Term::Var(variable) => *variable as u64 + 1,
    }
}

/// A number above those of the variables of terms.
pub(crate) fn above_terms(terms: &[Term]) -> u64
    ensures { AllByRecursion (λ v. v < result) (args_vars terms.now) }
{
    let mut above = 0u64;
    for term in terms {
        above = above.max(above_term(term));
    }
    above
}

/// A number above those of the variables of conditions.
pub fn above_conds(conds: &[Cond]) -> u64
    ensures { AllByRecursion (λ v. v < result) (flat_map cond_vars conds.now) }
{
    let mut above = 0u64;
    for cond in conds {
        above = above.max(above_cond(cond));
    }
    above
}

fn above_cond(cond: &Cond) -> u64
    ensures { AllByRecursion (λ v. v < result) (cond_vars cond.now) }
{
    match cond {
        Cond::Lit(lit) => above_terms(lit.atom.args.as_slice()),
        Cond::Built(built) => above_built(built),
    }
}

fn above_built(built: &Built) -> u64
    ensures { AllByRecursion (λ v. v < result) (built_vars built.now) }
{
    match built {
        Built::Same(left, right) => above_term(left).max(above_term(right)),
        Built::Differ(left, right) => above_term(left).max(above_term(right)),
        Built::Is(left, right) => above_term(left).max(above_expr(right)),
        Built::Compare(_, left, right) => above_expr(left).max(above_expr(right)),
    }
}

fn above_expr(expr: &Expr) -> u64
    ensures { AllByRecursion (λ v. v < result) (expr_vars expr.now) }
{
    match expr {
        Expr::Leaf(term) => above_term(term),
        Expr::Apply(_, left, right) => above_expr(left.get()).max(above_expr(right.get())),
    }
}

/// Notes the variables of a term.
fn note_term(term: &Term, variables: &mut BTreeSet<u32>) -> Result<(), AllocError>
    ensures { OnOk result (variables.new.keys ≡ with_vars variables.old.keys (term_vars term.now)) }
{
    match term {
        Term::Int(_) => Ok(()),
        Term::Sym(_) => Ok(()),
        Term::App(_, args) => {
            for arg in args.as_slice() {
                note_term(arg, variables)?;
            }
            Ok(())
        }
        Term::Var(variable) => {
            variables.insert(*variable)?;
            Ok(())
        }
    }
}

/// Notes the variables of terms.
fn note_terms(terms: &[Term], variables: &mut BTreeSet<u32>) -> Result<(), AllocError>
    ensures { OnOk result (variables.new.keys ≡ with_vars variables.old.keys (args_vars terms.now)) }
{
    for term in terms {
        note_term(term, variables)?;
    }
    Ok(())
}

/// Puts the variables of a condition into the set. The only error is that memory ran out.
pub fn note_cond(cond: &Cond, variables: &mut BTreeSet<u32>) -> Result<(), AllocError>
    ensures { OnOk result (variables.new.keys ≡ with_vars variables.old.keys (cond_vars cond.now)) }
{
    match cond {
        Cond::Lit(lit) => note_terms(lit.atom.args.as_slice(), variables),
        Cond::Built(built) => note_built(built, variables),
    }
}

fn note_built(built: &Built, variables: &mut BTreeSet<u32>) -> Result<(), AllocError>
    ensures { OnOk result (variables.new.keys ≡ with_vars variables.old.keys (built_vars built.now)) }
{
    match built {
        Built::Same(left, right) => {
            note_term(left, variables)?;
            note_term(right, variables)
        }
        Built::Differ(left, right) => {
            note_term(left, variables)?;
            note_term(right, variables)
        }
        Built::Is(left, right) => {
            note_term(left, variables)?;
            note_expr(right, variables)
        }
        Built::Compare(_, left, right) => {
            note_expr(left, variables)?;
            note_expr(right, variables)
        }
    }
}

fn note_expr(expr: &Expr, variables: &mut BTreeSet<u32>) -> Result<(), AllocError>
    ensures { OnOk result (variables.new.keys ≡ with_vars variables.old.keys (expr_vars expr.now)) }
{
    match expr {
        Expr::Leaf(term) => note_term(term, variables),
        Expr::Apply(_, left, right) => {
            note_expr(left.get(), variables)?;
            note_expr(right.get(), variables)
        }
    }
}
