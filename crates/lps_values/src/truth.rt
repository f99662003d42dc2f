ghost use Rattle.std.specs.Prelude.{◌≡◌};
ghost use Rattle.lps_values.specs.Truth.{compare_values, compares, is_true, is_value};
ghost use Rattle.lps_values.specs.Values.{value_of};

use crate::values::value;
use lps_terms::{Built, Expr, Rel, Term};

fn compare(rel: Rel, left: i64, right: i64) -> bool
    ensures { result ≡ compares rel left right }
{
    match rel {
        Rel::Less => left < right,
        Rel::AtMost => left <= right,
        Rel::Greater => left > right,
        Rel::AtLeast => left >= right,
    }
}

/// Whether both sides have values that compare so.
fn compare_sides(rel: Rel, left: &Expr, right: &Expr) -> bool
    ensures { result ≡ compare_values rel (value_of left.now) (value_of right.now) }
{
    match (value(left), value(right)) {
        (Some(left), Some(right)) => compare(rel, left, right),
        _ => false,
    }
}

/// Whether a term is the integer that the expression has as its value.
fn is_value_of(term: &Term, expr: &Expr) -> bool
    ensures { result ≡ is_value term.now (value_of expr.now) }
{
    match (term, value(expr)) {
        (Term::Int(number), Some(value)) => *number == value,
        _ => false,
    }
}

/// Whether a built-in is true. Terms are compared as they stand, and a comparison or an `is` without a value is false.
pub fn holds(built: &Built) -> bool
    ensures { result ≡ is_true built.now }
{
    match built {
        Built::Same(left, right) => left == right,
        Built::Differ(left, right) => left != right,
        Built::Is(term, expr) => is_value_of(term, expr),
        Built::Compare(rel, left, right) => compare_sides(*rel, left, right),
    }
}
