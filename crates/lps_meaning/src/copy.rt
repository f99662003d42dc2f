//! Copies of what goals are pursued with, each equal to what it is a copy of.

ghost use Rattle.std.specs.Prelude.{◌≡◌, IfOk};

use crate::{Carry, GoalKey, Left, LeftItem, Node};
use lps_model::{Cycle, Group, Pick};
use lps_terms::{Atom, Term, copy_atom, copy_built, copy_lit, copy_term};
use sqlite_items::Items;
use std::alloc::{AllocError, Global};

/// A cycle equal to this one, or `AllocError` where memory ran out.
pub fn copy_cycle(alloc: Global, cycle: &Cycle) -> Result<Cycle, AllocError>
    ensures { IfOk result (λ copy. copy ≡ cycle.now) }
{
    let events = copy_atoms(alloc, cycle.events.as_slice())?;
    let verdicts = Items::from_slice(alloc, cycle.verdicts.as_slice())?;
    let picks = copy_picks(alloc, cycle.picks.as_slice())?;
    Ok(Cycle {
        events,
        verdicts,
        picks,
    })
}

/// A key equal to this one, or `AllocError` where memory ran out.
pub fn copy_key(alloc: Global, key: &GoalKey) -> Result<GoalKey, AllocError>
    ensures { IfOk result (λ copy. copy ≡ key.now) }
{
    let values = copy_terms(alloc, key.values.as_slice())?;
    let times = Items::from_slice(alloc, key.times.as_slice())?;
    Ok(GoalKey {
        rule: key.rule,
        values,
        times,
        time: key.time,
    })
}

/// A node equal to this one, or `AllocError` where memory ran out.
pub fn copy_node(alloc: Global, node: &Node) -> Result<Node, AllocError>
    ensures { IfOk result (λ copy. copy ≡ node.now) }
{
    let rank = Items::from_slice(alloc, node.rank.as_slice())?;
    let carry = copy_carry(alloc, &node.carry)?;
    let rest = copy_rest(alloc, node.rest.as_slice())?;
    let limits = Items::from_slice(alloc, node.limits.as_slice())?;
    Ok(Node {
        alternative: node.alternative,
        rank,
        done: node.done,
        carry,
        rest,
        limits,
    })
}

fn copy_atoms(alloc: Global, atoms: &[Atom]) -> Result<Items<Atom>, AllocError>
    ensures { IfOk result (λ copies. copies ≡ atoms.now) }
{
    let mut copies = Vec::new(alloc);
    for atom in atoms {
        copies.push(copy_atom(alloc, atom)?)?;
    }
    Ok(Items::from_vec(copies))
}

fn copy_terms(alloc: Global, terms: &[Term]) -> Result<Items<Term>, AllocError>
    ensures { IfOk result (λ copies. copies ≡ terms.now) }
{
    let mut copies = Vec::new(alloc);
    for term in terms {
        copies.push(copy_term(alloc, term)?)?;
    }
    Ok(Items::from_vec(copies))
}

fn copy_pick(alloc: Global, pick: &Pick) -> Result<Pick, AllocError>
    ensures { IfOk result (λ copy. copy ≡ pick.now) }
{
    let atoms = copy_atoms(alloc, pick.group.atoms.as_slice())?;
    Ok(Pick {
        goal: pick.goal,
        group: Group { atoms },
    })
}

fn copy_picks(alloc: Global, picks: &[Pick]) -> Result<Items<Pick>, AllocError>
    ensures { IfOk result (λ copies. copies ≡ picks.now) }
{
    let mut copies = Vec::new(alloc);
    for pick in picks {
        copies.push(copy_pick(alloc, pick)?)?;
    }
    Ok(Items::from_vec(copies))
}

fn copy_carry(alloc: Global, carry: &Carry) -> Result<Carry, AllocError>
    ensures { IfOk result (λ copy. copy ≡ carry.now) }
{
    let values = copy_terms(alloc, carry.values.as_slice())?;
    let times = Items::from_slice(alloc, carry.times.as_slice())?;
    Ok(Carry { values, times })
}

fn copy_left(alloc: Global, left: &Left) -> Result<Left, AllocError>
    ensures { IfOk result (λ copy. copy ≡ left.now) }
{
    let item = copy_left_item(alloc, &left.item)?;
    Ok(Left {
        item,
        nest: left.nest,
    })
}

fn copy_left_item(alloc: Global, item: &LeftItem) -> Result<LeftItem, AllocError>
    ensures { IfOk result (λ copy. copy ≡ item.now) }
{
    match item {
        LeftItem::At(lit, time) => Ok(LeftItem::At(copy_lit(alloc, lit)?, *time)),
        LeftItem::Bare(lit) => Ok(LeftItem::Bare(copy_lit(alloc, lit)?)),
        LeftItem::Built(built) => Ok(LeftItem::Built(copy_built(alloc, built)?)),
        LeftItem::Span(atom, from, to) => Ok(LeftItem::Span(copy_atom(alloc, atom)?, *from, *to)),
    }
}

fn copy_rest(alloc: Global, rest: &[Left]) -> Result<Items<Left>, AllocError>
    ensures { IfOk result (λ copies. copies ≡ rest.now) }
{
    let mut copies = Vec::new(alloc);
    for left in rest {
        copies.push(copy_left(alloc, left)?)?;
    }
    Ok(Items::from_vec(copies))
}
