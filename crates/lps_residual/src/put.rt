//! Nodes with terms and times put in for their variables and unknown times.
ghost use Rattle.std.specs.Prelude.{◌≡◌, IfOk, map};
ghost use Rattle.lps_terms.specs.Put.{put, put_atom};
ghost use Rattle.lps_derivation.specs.Expressions.{put_expr};
ghost use Rattle.lps_derivation.specs.Instances.{put_built, put_lit};
ghost use Rattle.lps_nodes.specs.Shapes.{put_left, put_left_con, put_left_item, put_when};
ghost use Rattle.lps_residual.specs.Putting.{put_node, value_at, value_by, when_at, when_by, when_renumbered};
ghost use Rattle.lps_unify.specs.Canonical.{place_of, renumbered};

use crate::seen::place_of;
use lps_meaning::{Carry, Left, LeftCon, LeftItem, Node, When};
use lps_terms::{Atom, Built, Expr, Lit, Term, copy_term};
use sqlite_items::{Boxed, Items};
use std::alloc::{AllocError, Global};

/// What is put in for variables: a term for each of the first ones, or the place of each among those seen.
#[derive(Clone, Copy)]
pub enum Terms<'a> {
    Given(&'a [Term]),
    Numbered(&'a [u32]),
}

/// What is put in for unknown times: a time for each of the first ones, or the place of each among those seen.
#[derive(Clone, Copy)]
pub enum Times<'a> {
    Given(&'a [When]),
    Numbered(&'a [u32]),
}

/// The node with terms and times put in. An error comes where memory runs out, or no number is left for a variable.
pub fn put_node(
    alloc: Global,
    terms: Terms<'_>,
    times: Times<'_>,
    node: &Node,
) -> Result<Node, AllocError>
    ensures { IfOk result (λ found. found ≡ put_node (value_by terms.entry) (when_by times.entry) node.now) }
{
    let rank = Items::from_slice(alloc, node.rank.as_slice())?;
    let carry = put_carry(alloc, terms, times, &node.carry)?;
    let rest = put_rest(alloc, terms, times, node.rest.as_slice())?;
    let limits = put_limits(alloc, times, node.limits.as_slice())?;
    Ok(Node {
        alternative: node.alternative,
        rank,
        done: node.done,
        carry,
        rest,
        limits,
    })
}

fn put_carry(
    alloc: Global,
    terms: Terms<'_>,
    times: Times<'_>,
    carry: &Carry,
) -> Result<Carry, AllocError>
    ensures values { IfOk result (λ found. found.values ≡ map (put (value_by terms.entry)) carry.now.values) }
    ensures times { IfOk result (λ found. found.times ≡ map (put_when (when_by times.entry)) carry.now.times) }
{
    let values = put_terms(alloc, terms, carry.values.as_slice())?;
    let times = put_times(alloc, times, carry.times.as_slice())?;
    Ok(Carry { values, times })
}

fn put_times(alloc: Global, times: Times<'_>, whens: &[When]) -> Result<Items<When>, AllocError>
    ensures { IfOk result (λ found. found ≡ map (put_when (when_by times.entry)) whens.now) }
{
    let mut found = Vec::new(alloc);
    for when in whens {
        found.push(put_time(times, *when)?)?;
    }
    Ok(Items::from_vec(found))
}

fn put_rest(
    alloc: Global,
    terms: Terms<'_>,
    times: Times<'_>,
    rest: &[Left],
) -> Result<Items<Left>, AllocError>
    ensures { IfOk result (λ found. found ≡ map (put_left (value_by terms.entry) (when_by times.entry)) rest.now) }
{
    let mut found = Vec::new(alloc);
    for left in rest {
        found.push(put_left(alloc, terms, times, left)?)?;
    }
    Ok(Items::from_vec(found))
}

fn put_limits(
    alloc: Global,
    times: Times<'_>,
    limits: &[LeftCon],
) -> Result<Items<LeftCon>, AllocError>
    ensures { IfOk result (λ found. found ≡ map (put_left_con (when_by times.entry)) limits.now) }
{
    let mut found = Vec::new(alloc);
    for limit in limits {
        found.push(put_limit(times, limit)?)?;
    }
    Ok(Items::from_vec(found))
}

fn put_limit(times: Times<'_>, limit: &LeftCon) -> Result<LeftCon, AllocError>
    ensures { IfOk result (λ found. found ≡ put_left_con (when_by times.entry) limit.now) }
{
    Ok(LeftCon {
        left: put_time(times, limit.left)?,
        rel: limit.rel,
        right: put_time(times, limit.right)?,
        plus: limit.plus,
    })
}

fn put_left(
    alloc: Global,
    terms: Terms<'_>,
    times: Times<'_>,
    left: &Left,
) -> Result<Left, AllocError>
    ensures { IfOk result (λ found. found ≡ put_left (value_by terms.entry) (when_by times.entry) left.now) }
{
    let item = put_left_item(alloc, terms, times, &left.item)?;
    Ok(Left {
        item,
        nest: left.nest,
    })
}

fn put_left_item(
    alloc: Global,
    terms: Terms<'_>,
    times: Times<'_>,
    item: &LeftItem,
) -> Result<LeftItem, AllocError>
    ensures { IfOk result (λ found. found ≡ put_left_item (value_by terms.entry) (when_by times.entry) item.now) }
{
    match item {
        LeftItem::At(lit, time) => {
            let time = put_time(times, *time)?;
            Ok(LeftItem::At(put_lit(alloc, terms, lit)?, time))
        }
        LeftItem::Bare(lit) => Ok(LeftItem::Bare(put_lit(alloc, terms, lit)?)),
        LeftItem::Built(built) => Ok(LeftItem::Built(put_built(alloc, terms, built)?)),
        LeftItem::Span(atom, from, to) => {
            let from = put_time(times, *from)?;
            let to = put_time(times, *to)?;
            Ok(LeftItem::Span(put_atom(alloc, terms, atom)?, from, to))
        }
    }
}

/// A time, or what is put in for it.
fn put_time(times: Times<'_>, when: When) -> Result<When, AllocError>
    ensures { IfOk result (λ found. found ≡ put_when (when_by times.entry) when) }
{
    match when {
        When::Known(time) => Ok(When::Known(time)),
        When::Unknown(number) => time_of(times, number),
    }
}

fn time_of(times: Times<'_>, number: u32) -> Result<When, AllocError>
    ensures { IfOk result (λ found. found ≡ when_by times.entry number) }
{
    match times {
        Times::Given(whens) => Ok(given_time(whens, number)),
        Times::Numbered(seen) => numbered_time(seen, number),
    }
}

fn given_time(whens: &[When], number: u32) -> When
    ensures { result ≡ when_at whens.now number }
{
    match whens.get(number as usize) {
        Some(when) => *when,
        None => When::Unknown(number),
    }
}

fn numbered_time(seen: &[u32], number: u32) -> Result<When, AllocError>
    ensures { IfOk result (λ found. found ≡ when_renumbered seen.now number) }
{
    match u32::try_from(place_of(seen, number)) {
        Ok(place) => Ok(When::Unknown(place)),
        Err(_) => Err(AllocError),
    }
}

fn put_lit(alloc: Global, terms: Terms<'_>, lit: &Lit) -> Result<Lit, AllocError>
    ensures { IfOk result (λ found. found ≡ put_lit (value_by terms.entry) lit.now) }
{
    let atom = put_atom(alloc, terms, &lit.atom)?;
    Ok(Lit {
        negated: lit.negated,
        atom,
    })
}

fn put_atom(alloc: Global, terms: Terms<'_>, atom: &Atom) -> Result<Atom, AllocError>
    ensures { IfOk result (λ found. found ≡ put_atom (value_by terms.entry) atom.now) }
{
    let name = atom.name.copy(alloc)?;
    let args = put_terms(alloc, terms, atom.args.as_slice())?;
    Ok(Atom { name, args })
}

fn put_built(alloc: Global, terms: Terms<'_>, built: &Built) -> Result<Built, AllocError>
    ensures { IfOk result (λ found. found ≡ put_built (value_by terms.entry) built.now) }
{
    match built {
        Built::Same(left, right) => {
            let left = put_term(alloc, terms, left)?;
            Ok(Built::Same(left, put_term(alloc, terms, right)?))
        }
        Built::Differ(left, right) => {
            let left = put_term(alloc, terms, left)?;
            Ok(Built::Differ(left, put_term(alloc, terms, right)?))
        }
        Built::Is(left, right) => {
            let left = put_term(alloc, terms, left)?;
            Ok(Built::Is(left, put_expr(alloc, terms, right)?))
        }
        Built::Compare(rel, left, right) => {
            let left = put_expr(alloc, terms, left)?;
            Ok(Built::Compare(*rel, left, put_expr(alloc, terms, right)?))
        }
    }
}

fn put_expr(alloc: Global, terms: Terms<'_>, expr: &Expr) -> Result<Expr, AllocError>
    ensures { IfOk result (λ found. found ≡ put_expr (value_by terms.entry) expr.now) }
{
    match expr {
        Expr::Leaf(term) => Ok(Expr::Leaf(put_term(alloc, terms, term)?)),
        Expr::Apply(op, left, right) => {
            let left = Boxed::new(alloc, put_expr(alloc, terms, left.get())?)?;
            let right = Boxed::new(alloc, put_expr(alloc, terms, right.get())?)?;
            Ok(Expr::Apply(*op, left, right))
        }
    }
}

#[cycle(put)]
fn put_term(alloc: Global, terms: Terms<'_>, term: &Term) -> Result<Term, AllocError>
    ensures { IfOk result (λ found. found ≡ put (value_by terms.entry) term.now) }
{
    match term {
        Term::Int(value) => Ok(Term::Int(*value)),
        Term::Sym(name) => Ok(Term::Sym(name.copy(alloc)?)),
        Term::App(name, args) => {
            let name = name.copy(alloc)?;
            Ok(Term::App(name, put_terms(alloc, terms, args.as_slice())?))
        }
        Term::Var(variable) => term_of(alloc, terms, *variable),
    }
}

#[cycle(put)]
fn put_terms(alloc: Global, terms: Terms<'_>, list: &[Term]) -> Result<Items<Term>, AllocError>
    ensures { IfOk result (λ found. found ≡ map (put (value_by terms.entry)) list.now) }
{
    let mut found = Vec::new(alloc);
    for term in list {
        found.push(put_term(alloc, terms, term)?)?;
    }
    Ok(Items::from_vec(found))
}

fn term_of(alloc: Global, terms: Terms<'_>, variable: u32) -> Result<Term, AllocError>
    ensures { IfOk result (λ found. found ≡ value_by terms.entry variable) }
{
    match terms {
        Terms::Given(values) => given_term(alloc, values, variable),
        Terms::Numbered(seen) => numbered_term(seen, variable),
    }
}

fn given_term(alloc: Global, values: &[Term], variable: u32) -> Result<Term, AllocError>
    ensures { IfOk result (λ found. found ≡ value_at values.now variable) }
{
    match values.get(variable as usize) {
        Some(value) => copy_term(alloc, value),
        None => Ok(Term::Var(variable)),
    }
}

fn numbered_term(seen: &[u32], variable: u32) -> Result<Term, AllocError>
    ensures { IfOk result (λ found. found ≡ renumbered seen.now variable) }
{
    match u32::try_from(place_of(seen, variable)) {
        Ok(place) => Ok(Term::Var(place)),
        Err(_) => Err(AllocError),
    }
}
