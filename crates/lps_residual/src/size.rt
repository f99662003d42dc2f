//! Which items are small.
ghost use Rattle.std.specs.Prelude.{◌≡◌, ◌↔◌, IsTrue, min};
ghost use Rattle.std.specs.List.{AllByRecursion};
ghost use Rattle.lps_derivation.specs.Expressions.{expr_symbols_of};
ghost use Rattle.lps_derivation.specs.Instances.{IsSmallBuilt};
ghost use Rattle.lps_nodes.specs.Conditions.{IsLeftSmall};

use lps_meaning::{Left, LeftItem};
use lps_terms::{Built, Expr, atom_symbols, symbols};

/// How many symbols an atom, or a side of a built-in, may have.
pub const MOST_SYMBOLS: u64 = 1024;

/// Whether each of the items is small.
pub fn are_small(rest: &[Left]) -> bool
    ensures { IsTrue result ↔ AllByRecursion (λ left. IsLeftSmall left.item) rest.now }
{
    for left in rest {
        if !is_small(&left.item) {
            return false;
        }
    }
    true
}

/// Whether the atom of an item, or each side of its built-in, has at most 1,024 symbols.
fn is_small(item: &LeftItem) -> bool
    ensures { IsTrue result ↔ IsLeftSmall item.now }
{
    match item {
        LeftItem::At(lit, _) => atom_symbols(&lit.atom) <= MOST_SYMBOLS,
        LeftItem::Bare(lit) => atom_symbols(&lit.atom) <= MOST_SYMBOLS,
        LeftItem::Built(built) => is_small_built(built),
        LeftItem::Span(atom, _, _) => atom_symbols(atom) <= MOST_SYMBOLS,
    }
}

fn is_small_built(built: &Built) -> bool
    ensures { IsTrue result ↔ IsSmallBuilt built.now }
{
    match built {
        Built::Same(left, right) => symbols(left) <= MOST_SYMBOLS && symbols(right) <= MOST_SYMBOLS,
        Built::Differ(left, right) => {
            symbols(left) <= MOST_SYMBOLS && symbols(right) <= MOST_SYMBOLS
        }
        Built::Is(left, right) => {
            symbols(left) <= MOST_SYMBOLS && expr_symbols(right) <= MOST_SYMBOLS
        }
        Built::Compare(_, left, right) => {
            expr_symbols(left) <= MOST_SYMBOLS && expr_symbols(right) <= MOST_SYMBOLS
        }
    }
}

/// How many symbols an expression has. `u64::MAX` stands for that number and all above.
fn expr_symbols(expr: &Expr) -> u64
    ensures { result ≡ min (expr_symbols_of expr.now) u64.MAX }
{
    match expr {
        Expr::Leaf(term) => symbols(term),
        Expr::Apply(_, left, right) => 1u64
            .saturating_add(expr_symbols(left.get()))
            .saturating_add(expr_symbols(right.get())),
    }
}
