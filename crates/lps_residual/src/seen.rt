//! Which variables and unknown times there are, each once, in the order in which they first occur.
#![tactic(auto, using(crate::proofs::FirstSeen::first_seen_append))]

ghost use Rattle.std.specs.Prelude.{◌≡◌, ◌++◌, OnOk, nat_eq};
ghost use Rattle.std.specs.List.{flat_map, position};
ghost use Rattle.lps_model.specs.Order.{times_of};
ghost use Rattle.lps_model.specs.VariableLists.{args_vars, built_vars, expr_vars, item_vars, term_vars};
ghost use Rattle.lps_nodes.specs.Nodes.{left_in};
ghost use Rattle.lps_nodes.specs.Shapes.{left_unknowns, left_vars, shape_unknowns, shape_vars, unknowns};
ghost use Rattle.lps_unify.specs.Canonical.{first_seen, place_of, with_variable};

use lps_meaning::{Left, LeftCon, LeftItem, Node, When};
use lps_terms::{Built, Expr, Item, Term};
use std::alloc::AllocError;

/// The place of a number among those seen, or how many there are.
pub fn place_of(seen: &[u32], number: u32) -> usize
    ensures { result ≡ place_of seen.now number }
{
    match first_place(seen, number) {
        Some(place) => place,
        None => seen.len(),
    }
}

fn first_place(seen: &[u32], number: u32) -> Option<usize>
    ensures { result ≡ position (λ w. nat_eq w number) seen.now }
{
    seen.iter().position(|other| *other == number)
}

/// Adds the number where it is new.
fn see(number: u32, seen: &mut Vec<u32>) -> Result<(), AllocError>
    ensures { OnOk result (seen.new.items ≡ with_variable seen.old.items number) }
{
    if place_of(seen.as_slice(), number) < seen.len() {
        return Ok(());
    }
    seen.push(number)?;
    Ok(())
}

/// Adds the variables of a node that are new.
pub fn see_variables(node: &Node, seen: &mut Vec<u32>) -> Result<(), AllocError>
    ensures { OnOk result (seen.new.items ≡ first_seen seen.old.items (shape_vars (left_in node.now))) }
{
    see_terms(node.carry.values.as_slice(), seen)?;
    see_rest(node.rest.as_slice(), seen)
}

/// Adds the unknown times of a node that are new.
pub fn see_unknowns(node: &Node, seen: &mut Vec<u32>) -> Result<(), AllocError>
    ensures { OnOk result (seen.new.items ≡ first_seen seen.old.items (shape_unknowns (left_in node.now))) }
{
    see_whens(node.carry.times.as_slice(), seen)?;
    see_rest_times(node.rest.as_slice(), seen)?;
    see_limits(node.limits.as_slice(), seen)
}

fn see_rest(rest: &[Left], seen: &mut Vec<u32>) -> Result<(), AllocError>
    ensures { OnOk result (seen.new.items ≡ first_seen seen.old.items (flat_map (λ left. left_vars left.item) rest.now)) }
{
    for left in rest {
        see_left(&left.item, seen)?;
    }
    Ok(())
}

fn see_left(item: &LeftItem, seen: &mut Vec<u32>) -> Result<(), AllocError>
    ensures { OnOk result (seen.new.items ≡ first_seen seen.old.items (left_vars item.now)) }
{
    match item {
        LeftItem::At(lit, _) => see_terms(lit.atom.args.as_slice(), seen),
        LeftItem::Bare(lit) => see_terms(lit.atom.args.as_slice(), seen),
        LeftItem::Built(built) => see_built(built, seen),
        LeftItem::Span(atom, _, _) => see_terms(atom.args.as_slice(), seen),
    }
}

fn see_rest_times(rest: &[Left], seen: &mut Vec<u32>) -> Result<(), AllocError>
    ensures { OnOk result (seen.new.items ≡ first_seen seen.old.items (flat_map (λ left. left_unknowns left.item) rest.now)) }
{
    for left in rest {
        see_left_times(&left.item, seen)?;
    }
    Ok(())
}

fn see_left_times(item: &LeftItem, seen: &mut Vec<u32>) -> Result<(), AllocError>
    ensures { OnOk result (seen.new.items ≡ first_seen seen.old.items (left_unknowns item.now)) }
{
    match item {
        LeftItem::At(_, time) => see_when(*time, seen),
        LeftItem::Bare(_) => Ok(()),
        LeftItem::Built(_) => Ok(()),
        LeftItem::Span(_, from, to) => {
            see_when(*from, seen)?;
            see_when(*to, seen)
        }
    }
}

fn see_whens(whens: &[When], seen: &mut Vec<u32>) -> Result<(), AllocError>
    ensures { OnOk result (seen.new.items ≡ first_seen seen.old.items (flat_map unknowns whens.now)) }
{
    for when in whens {
        see_when(*when, seen)?;
    }
    Ok(())
}

fn see_limits(limits: &[LeftCon], seen: &mut Vec<u32>) -> Result<(), AllocError>
    ensures { OnOk result (seen.new.items ≡ first_seen seen.old.items (flat_map (λ con. unknowns con.left ++ unknowns con.right) limits.now)) }
{
    for limit in limits {
        see_limit(limit, seen)?;
    }
    Ok(())
}

fn see_limit(limit: &LeftCon, seen: &mut Vec<u32>) -> Result<(), AllocError>
    ensures { OnOk result (seen.new.items ≡ first_seen seen.old.items (unknowns limit.now.left ++ unknowns limit.now.right)) }
{
    see_when(limit.left, seen)?;
    see_when(limit.right, seen)
}

fn see_when(when: When, seen: &mut Vec<u32>) -> Result<(), AllocError>
    ensures { OnOk result (seen.new.items ≡ first_seen seen.old.items (unknowns when)) }
{
    match when {
        When::Known(_) => Ok(()),
        When::Unknown(number) => see(number, seen),
    }
}

/// Adds the variables of items of a text that are new.
pub fn see_items(items: &[Item], seen: &mut Vec<u32>) -> Result<(), AllocError>
    ensures { OnOk result (seen.new.items ≡ first_seen seen.old.items (flat_map item_vars items.now)) }
{
    for item in items {
        see_item(item, seen)?;
    }
    Ok(())
}

fn see_item(item: &Item, seen: &mut Vec<u32>) -> Result<(), AllocError>
    ensures { OnOk result (seen.new.items ≡ first_seen seen.old.items (item_vars item.now)) }
{
    match item {
        Item::At(lit, _) => see_terms(lit.atom.args.as_slice(), seen),
        Item::Bare(lit) => see_terms(lit.atom.args.as_slice(), seen),
        Item::Built(built) => see_built(built, seen),
        Item::Span(atom, _, _) => see_terms(atom.args.as_slice(), seen),
        Item::Con(_) => Ok(()),
    }
}

/// Adds the times of items of a text that are new.
pub fn see_times(items: &[Item], seen: &mut Vec<u32>) -> Result<(), AllocError>
    ensures { OnOk result (seen.new.items ≡ first_seen seen.old.items (flat_map times_of items.now)) }
{
    for item in items {
        see_item_times(item, seen)?;
    }
    Ok(())
}

fn see_item_times(item: &Item, seen: &mut Vec<u32>) -> Result<(), AllocError>
    ensures { OnOk result (seen.new.items ≡ first_seen seen.old.items (times_of item.now)) }
{
    match item {
        Item::At(_, time) => see(time.0, seen),
        Item::Bare(_) => Ok(()),
        Item::Built(_) => Ok(()),
        Item::Span(_, from, to) => {
            see(from.0, seen)?;
            see(to.0, seen)
        }
        Item::Con(con) => {
            see(con.left.0, seen)?;
            see(con.right.0, seen)
        }
    }
}

fn see_built(built: &Built, seen: &mut Vec<u32>) -> Result<(), AllocError>
    ensures { OnOk result (seen.new.items ≡ first_seen seen.old.items (built_vars built.now)) }
{
    match built {
        Built::Same(left, right) => {
            see_term(left, seen)?;
            see_term(right, seen)
        }
        Built::Differ(left, right) => {
            see_term(left, seen)?;
            see_term(right, seen)
        }
        Built::Is(left, right) => {
            see_term(left, seen)?;
            see_expr(right, seen)
        }
        Built::Compare(_, left, right) => {
            see_expr(left, seen)?;
            see_expr(right, seen)
        }
    }
}

fn see_expr(expr: &Expr, seen: &mut Vec<u32>) -> Result<(), AllocError>
    ensures { OnOk result (seen.new.items ≡ first_seen seen.old.items (expr_vars expr.now)) }
{
    match expr {
        Expr::Leaf(term) => see_term(term, seen),
        Expr::Apply(_, left, right) => {
            see_expr(left.get(), seen)?;
            see_expr(right.get(), seen)
        }
    }
}

/// Adds the variables of a term that are new.
#[cycle(see)]
pub fn see_term(term: &Term, seen: &mut Vec<u32>) -> Result<(), AllocError>
    ensures { OnOk result (seen.new.items ≡ first_seen seen.old.items (term_vars term.now)) }
{
    match term {
        Term::Int(_) => Ok(()),
        Term::Sym(_) => Ok(()),
        Term::App(_, args) => see_terms(args.as_slice(), seen),
        Term::Var(variable) => see(*variable, seen),
    }
}

#[cycle(see)]
fn see_terms(terms: &[Term], seen: &mut Vec<u32>) -> Result<(), AllocError>
    ensures { OnOk result (seen.new.items ≡ first_seen seen.old.items (args_vars terms.now)) }
{
    for term in terms {
        see_term(term, seen)?;
    }
    Ok(())
}
