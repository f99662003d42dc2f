use crate::expr::Expr;
use crate::rel::Rel;
use crate::term::Term;

/// A condition that the language itself decides.
#[derive(Drop)]
pub enum Built {
    /// `left = right`
    Same(Term, Term),
    /// `left \= right`
    Differ(Term, Term),
    /// `left is right`
    Is(Term, Expr),
    Compare(Rel, Expr, Expr),
}
