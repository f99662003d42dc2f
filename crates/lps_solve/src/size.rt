ghost use Rattle.std.specs.Prelude.{◌≡◌, ◌+◌, min};
ghost use Rattle.lps_terms.specs.Symbols.{symbols_of_all};
ghost use Rattle.lps_derivation.specs.Expressions.{expr_symbols_of};

use lps_terms::{Expr, Term, symbols};

/// How many symbols an atom, a term or an expression of an instance may have.
pub(crate) const MOST_SYMBOLS: u64 = 1024;

/// How many symbols the terms have together. `u64::MAX` stands for that number and all above.
pub(crate) fn symbols_of_all(terms: &[Term]) -> u64
    ensures { result ≡ min (symbols_of_all terms.now) u64.MAX }
{
    let mut count = 0u64;
    for term in terms {
        count = count.saturating_add(symbols(term));
    }
    count
}

/// How many symbols an expression has. `u64::MAX` stands for that number and all above.
pub(crate) fn expr_symbols(expr: &Expr) -> u64
    ensures { result ≡ min (expr_symbols_of expr.now) u64.MAX }
{
    match expr {
        Expr::Leaf(term) => symbols(term),
        Expr::Apply(_, left, right) => 1u64
            .saturating_add(expr_symbols(left.get()))
            .saturating_add(expr_symbols(right.get())),
    }
}
