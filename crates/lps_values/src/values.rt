ghost use Rattle.std.specs.Prelude.{◌≡◌};
ghost use Rattle.lps_values.specs.Values.{value_of};

use crate::arithmetic::apply;
use lps_terms::{Expr, Term};

/// The value of an expression. It has none where a leaf is no integer, the result of an operation at any place is no
/// `i64`, or a divisor is 0.
pub fn value(expr: &Expr) -> Option<i64>
    ensures { result ≡ value_of expr.now }
{
    match expr {
        Expr::Leaf(Term::Int(number)) => Some(*number),
        Expr::Leaf(_) => None,
        Expr::Apply(op, left, right) => apply(*op, value(left.get())?, value(right.get())?),
    }
}
