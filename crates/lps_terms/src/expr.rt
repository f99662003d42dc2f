use crate::op::Op;
use crate::term::Term;
use sqlite_items::Boxed;

/// An arithmetic expression. Parentheses are gone.
#[derive(Drop)]
pub enum Expr {
    /// An integer or a variable.
    Leaf(Term),
    Apply(Op, Boxed<Expr>, Boxed<Expr>),
}
