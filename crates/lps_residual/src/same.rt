//! Whether two nodes are the same.
ghost use Rattle.std.specs.Prelude.{◌≡◌, ◌↔◌, IsTrue};

use lps_meaning::{Carry, Left, LeftCon, LeftItem, Node, When};
use lps_terms::{Atom, Built, Expr, Lit, Term};

/// Whether two nodes are the same.
pub fn are_same(node: &Node, other: &Node) -> bool
    ensures { IsTrue result ↔ (node.now ≡ other.now) }
{
    node.alternative == other.alternative
        && node.done == other.done
        && node.rank.as_slice() == other.rank.as_slice()
        && are_same_carries(&node.carry, &other.carry)
        && are_same_rests(node.rest.as_slice(), other.rest.as_slice())
        && are_same_limits(node.limits.as_slice(), other.limits.as_slice())
}

fn are_same_limits(limits: &[LeftCon], others: &[LeftCon]) -> bool
    ensures { IsTrue result ↔ (limits.now ≡ others.now) }
{
    limits == others
}

fn are_same_carries(carry: &Carry, other: &Carry) -> bool
    ensures { IsTrue result ↔ (carry.now ≡ other.now) }
{
    are_same_terms(carry.values.as_slice(), other.values.as_slice())
        && are_same_times(carry.times.as_slice(), other.times.as_slice())
}

fn are_same_times(times: &[When], others: &[When]) -> bool
    ensures { IsTrue result ↔ (times.now ≡ others.now) }
{
    times == others
}

fn are_same_terms(terms: &[Term], others: &[Term]) -> bool
    ensures { IsTrue result ↔ (terms.now ≡ others.now) }
{
    terms == others
}

#[tactic(auto, using(crate::proofs::Deciding::same_term))]
fn is_same_term(term: &Term, other: &Term) -> bool
    ensures { IsTrue result ↔ (term.now ≡ other.now) }
{
    term == other
}

#[tactic(auto, using(crate::proofs::Deciding::same_atom))]
fn is_same_atom(atom: &Atom, other: &Atom) -> bool
    ensures { IsTrue result ↔ (atom.now ≡ other.now) }
{
    atom == other
}

fn are_same_rests(rest: &[Left], others: &[Left]) -> bool
    ensures { IsTrue result ↔ (rest.now ≡ others.now) }
{
    if rest.len() != others.len() {
        return false;
    }
    for place in 0..rest.len() {
        if !is_same_left(&rest[place], &others[place]) {
            return false;
        }
    }
    true
}

fn is_same_left(left: &Left, other: &Left) -> bool
    ensures { IsTrue result ↔ (left.now ≡ other.now) }
{
    left.nest == other.nest && is_same_item(&left.item, &other.item)
}

fn is_same_item(item: &LeftItem, other: &LeftItem) -> bool
    ensures { IsTrue result ↔ (item.now ≡ other.now) }
{
    match (item, other) {
        (LeftItem::At(lit, time), LeftItem::At(other, other_time)) => {
            *time == *other_time && is_same_lit(lit, other)
        }
        (LeftItem::Bare(lit), LeftItem::Bare(other)) => is_same_lit(lit, other),
        (LeftItem::Built(built), LeftItem::Built(other)) => is_same_built(built, other),
        (LeftItem::Span(atom, from, to), LeftItem::Span(other, other_from, other_to)) => {
            *from == *other_from && *to == *other_to && is_same_atom(atom, other)
        }
        _ => false,
    }
}

fn is_same_lit(lit: &Lit, other: &Lit) -> bool
    ensures { IsTrue result ↔ (lit.now ≡ other.now) }
{
    lit.negated == other.negated && is_same_atom(&lit.atom, &other.atom)
}

fn is_same_built(built: &Built, other: &Built) -> bool
    ensures { IsTrue result ↔ (built.now ≡ other.now) }
{
    match (built, other) {
        (Built::Same(left, right), Built::Same(other_left, other_right)) => {
            is_same_term(left, other_left) && is_same_term(right, other_right)
        }
        (Built::Differ(left, right), Built::Differ(other_left, other_right)) => {
            is_same_term(left, other_left) && is_same_term(right, other_right)
        }
        (Built::Is(left, right), Built::Is(other_left, other_right)) => {
            is_same_term(left, other_left) && is_same_expr(right, other_right)
        }
        (Built::Compare(rel, left, right), Built::Compare(other, other_left, other_right)) => {
            *rel == *other && is_same_expr(left, other_left) && is_same_expr(right, other_right)
        }
        _ => false,
    }
}

fn is_same_expr(expr: &Expr, other: &Expr) -> bool
    ensures { IsTrue result ↔ (expr.now ≡ other.now) }
{
    match (expr, other) {
        (Expr::Leaf(term), Expr::Leaf(other)) => is_same_term(term, other),
        (Expr::Apply(op, left, right), Expr::Apply(other, other_left, other_right)) => {
            *op == *other
                && is_same_expr(left.get(), other_left.get())
                && is_same_expr(right.get(), other_right.get())
        }
        _ => false,
    }
}
