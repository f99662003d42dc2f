//! The symbols of what is left of a sequence.
ghost use Rattle.std.specs.Prelude.{◌≡◌, ◌+◌, sum_by};
ghost use Rattle.lps_terms.specs.Symbols.{symbols_of_all};
ghost use Rattle.lps_derivation.specs.Expressions.{expr_symbols_of};
ghost use Rattle.lps_nodes.specs.Nodes.{built_size, left_size, node_size};
ghost use Rattle.lps_sizes.specs.Sizes.{limited};

use lps_meaning::{Left, LeftItem, Node};
use lps_terms::{Built, Expr, Term, atom_symbols, symbols};

/// How many symbols a node has. `u64::MAX` stands for that number and all above.
pub fn node_symbols(node: &Node) -> u64
    ensures { result ≡ limited (node_size node.now) }
{
    let limits = (node.limits.len() as u64).saturating_mul(3);
    1u64.saturating_add(node.rank.len() as u64)
        .saturating_add(terms_symbols(node.carry.values.as_slice()))
        .saturating_add(node.carry.times.len() as u64)
        .saturating_add(rest_symbols(node.rest.as_slice()))
        .saturating_add(limits)
}

pub(crate) fn terms_symbols(terms: &[Term]) -> u64
    ensures { result ≡ limited (symbols_of_all terms.now) }
{
    let mut count = 0u64;
    for term in terms {
        count = count.saturating_add(symbols(term));
    }
    count
}

fn rest_symbols(rest: &[Left]) -> u64
    ensures { result ≡ limited (sum_by (λ left. left_size left.item) rest.now) }
{
    let mut count = 0u64;
    for left in rest {
        count = count.saturating_add(left_symbols(&left.item));
    }
    count
}

/// The symbols of an item that is left: one more than its atom's for each of its times.
fn left_symbols(item: &LeftItem) -> u64
    ensures { result ≡ limited (left_size item.now) }
{
    match item {
        LeftItem::At(lit, _) => atom_symbols(&lit.atom).saturating_add(1),
        LeftItem::Bare(lit) => atom_symbols(&lit.atom),
        LeftItem::Built(built) => built_symbols(built),
        LeftItem::Span(atom, _, _) => atom_symbols(atom).saturating_add(2),
    }
}

fn built_symbols(built: &Built) -> u64
    ensures { result ≡ limited (built_size built.now) }
{
    match built {
        Built::Same(left, right) => one_and(symbols(left), symbols(right)),
        Built::Differ(left, right) => one_and(symbols(left), symbols(right)),
        Built::Is(left, right) => one_and(symbols(left), expr_symbols(right)),
        Built::Compare(_, left, right) => one_and(expr_symbols(left), expr_symbols(right)),
    }
}

/// One more than two counts together.
fn one_and(left: u64, right: u64) -> u64
    ensures { result ≡ limited (1 + left + right) }
{
    1u64.saturating_add(left).saturating_add(right)
}

fn expr_symbols(expr: &Expr) -> u64
    ensures { result ≡ limited (expr_symbols_of expr.now) }
{
    match expr {
        Expr::Leaf(term) => symbols(term),
        Expr::Apply(_, left, right) => one_and(expr_symbols(left.get()), expr_symbols(right.get())),
    }
}
