ghost use Rattle.std.specs.Prelude.{◌≡◌};
ghost use Rattle.std.specs.List.{list_all};
ghost use Rattle.lps_derivation.specs.Ground.{is_ground};
ghost use Rattle.lps_solve.specs.Met.{is_ground_expr};

use lps_terms::{Expr, Term, is_proper_name};

/// Whether a term is ground: it has no variables, and is one that a text may give.
#[cycle(ground)]
pub(crate) fn is_ground(term: &Term) -> bool
    ensures { result ≡ is_ground term.now }
{
    match term {
        Term::Int(number) => {
            let _number = *number;
            true
        }
        Term::Sym(name) => is_proper_name(name.bytes()),
        Term::App(name, args) => {
            if !is_proper_name(name.bytes()) {
                return false;
            }
            if args.len() == 0 {
                return false;
            }
            if args.len() > 64 {
                return false;
            }
            are_ground(args.as_slice())
        }
        Term::Var(_) => false,
    }
}

/// Whether each of the terms is ground.
#[cycle(ground)]
pub fn are_ground(terms: &[Term]) -> bool
    ensures { result ≡ list_all is_ground terms.now }
{
    for term in terms {
        if !is_ground(term) {
            return false;
        }
    }
    true
}

/// Whether each leaf of an expression is ground.
pub(crate) fn is_ground_expr(expr: &Expr) -> bool
    ensures { result ≡ is_ground_expr expr.now }
{
    match expr {
        Expr::Leaf(term) => is_ground(term),
        Expr::Apply(_, left, right) => is_ground_expr(left.get()) && is_ground_expr(right.get()),
    }
}
