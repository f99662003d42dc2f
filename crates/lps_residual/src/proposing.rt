//! The group of actions that a node proposes.
ghost use Rattle.std.specs.Prelude.{◌≡◌, ◌↔◌, ◌++◌, List, Contains, IfOk, IsTrue, MatchOption, OnOk, Some, None, option_copied};
ghost use Rattle.std.specs.List.Sorted.{IsStrictlySortedBy};
ghost use Rattle.lps_terms.specs.declared.atom.Atom.{Atom as Action};
ghost use Rattle.lps_terms.specs.Order.{atom_cmp};
ghost use Rattle.lps_nodes.specs.NextSteps.{IsProposed, MayBegin, atoms_of};
ghost use Rattle.lps_nodes.specs.Nodes.{left_in};
ghost use Rattle.lps_residual.specs.Moments.{IsReady};
ghost use Rattle.lps_residual.specs.Proposing.{action_begin, group_after, is_of_group, next_action};

use crate::conditions::{are_together, is_action};
use crate::seen::see_unknowns;
use crate::waiting::window;
use lps_meaning::{Left, LeftItem, Node, When};
use lps_model::{Accepted, Group};
use lps_terms::{Atom, copy_atom};
use lps_windows::window_law;
use sqlite_items::Items;
use std::alloc::{AllocError, Global};

/// The group of actions that is the next step of a node, where it may begin at this time by the node's time conditions. The node is
/// one that is left at this time.
///
/// # Errors
/// `AllocError` where memory runs out.
pub fn proposal(
    alloc: Global,
    text: &Accepted,
    node: &Node,
    time: u64,
) -> Result<Option<Group>, AllocError>
    requires node { IsReady text.now node.now }
    ensures { IfOk result (λ found. MatchOption found ((g : List Action) → IsProposed text.now time node.now g → ⊥) (λ group. IsProposed text.now time node.now group.atoms)) }
{
    match next_action(text, node) {
        None => Ok(None),
        Some(from) => {
            if !may_begin(alloc, text, node, from, time)? {
                return Ok(None);
            }
            let atoms = in_order(first_group(alloc, text, node.rest.as_slice())?)?;
            Ok(Some(Group {
                atoms: Items::from_vec(atoms),
            }))
        }
    }
}

/// When the first item of a node begins, where it is an action.
fn next_action(text: &Accepted, node: &Node) -> Option<When>
    ensures { result ≡ next_action text.now node.now.rest }
{
    match node.rest.get(0) {
        None => None,
        Some(first) => action_begin(text, &first.item),
    }
}

/// When an item begins, where it is an action.
fn action_begin(text: &Accepted, item: &LeftItem) -> Option<When>
    ensures { result ≡ action_begin text.now item.now }
{
    match item {
        LeftItem::At(_, _) => None,
        LeftItem::Bare(_) => None,
        LeftItem::Built(_) => None,
        LeftItem::Span(atom, from, _) => {
            if is_action(text, atom) {
                Some(*from)
            } else {
                None
            }
        }
    }
}

/// Whether the action that is next, from this time on, may begin at a time.
fn may_begin(
    alloc: Global,
    text: &Accepted,
    node: &Node,
    from: When,
    time: u64,
) -> Result<bool, AllocError>
    requires node { IsReady text.now node.now }
    requires from { next_action text.now node.now.rest ≡ Some from }
    ensures { IfOk result (λ may. IsTrue may ↔ MayBegin text.now time (left_in node.now)) }
{
    window_law();
    let mut unknowns = Vec::new(alloc);
    see_unknowns(node, &mut unknowns)?;
    match window(alloc, text, node, unknowns.len(), from)? {
        None => Ok(false),
        Some(window) => Ok(window.contains(time)),
    }
}

/// The atoms of the first item and of those that go on with its group.
fn first_group(alloc: Global, text: &Accepted, rest: &[Left]) -> Result<Vec<Atom>, AllocError>
    ensures { IfOk result (λ found. found.items ≡ group_after text.now None rest.now) }
{
    let mut atoms = Vec::new(alloc);
    let mut before = None;
    for left in rest {
        if !is_of_group(text, before, &left.item) {
            return Ok(atoms);
        }
        add_atom(alloc, &left.item, &mut atoms)?;
        before = Some(&left.item);
    }
    Ok(atoms)
}

/// Whether an item goes on with the group of the one before it, or begins one.
fn is_of_group(text: &Accepted, before: Option<&LeftItem>, item: &LeftItem) -> bool
    ensures { result ≡ is_of_group text.now (option_copied before.entry) item.now }
{
    match before {
        None => true,
        Some(before) => are_together(text, before, item),
    }
}

/// Adds the atom of an event or action.
fn add_atom(alloc: Global, item: &LeftItem, atoms: &mut Vec<Atom>) -> Result<(), AllocError>
    ensures { OnOk result (atoms.new.items ≡ atoms.old.items ++ atoms_of item.now) }
{
    match item {
        LeftItem::At(_, _) => Ok(()),
        LeftItem::Bare(_) => Ok(()),
        LeftItem::Built(_) => Ok(()),
        LeftItem::Span(atom, _, _) => {
            atoms.push(copy_atom(alloc, atom)?)?;
            Ok(())
        }
    }
}

/// The atoms in order, each once.
fn in_order(mut atoms: Vec<Atom>) -> Result<Vec<Atom>, AllocError>
    ensures sorted { IfOk result (λ ordered. IsStrictlySortedBy atom_cmp ordered.items) }
    ensures same { IfOk result (λ ordered. (a : Action) → Contains ordered.items a ↔ Contains atoms.items a) }
{
    atoms.sort()?;
    atoms.dedup();
    Ok(atoms)
}
