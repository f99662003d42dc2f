//! The calls of a text, by the numbers of their names.
ghost use Rattle.std.specs.Prelude.{◌≡◌, ◌||◌, not, true, false, IfOk, OnOk, All};
ghost use Rattle.std.specs.List.{flat_map};
ghost use Rattle.lps_model.specs.Calls.{call_in_cond, call_in_item, call_of, calls_in, calls_in_items, descends as descends_of, is_called, is_in_group as is_in_group_of};
ghost use Rattle.lps_model.specs.Declarations.{kind_among};
ghost use Rattle.lps_levels.specs.Graphs.{AreAdded, AreWithin, HasCalledHead, calls_by};
ghost use Rattle.lps_levels.specs.Names.{AreCalledNames};

use crate::edge::Edge;
use crate::inside::descends;
use crate::name_set::Names;
use lps_model::Kinds;
use lps_terms::{Atom, Body, Cond, Item, Kind, Statement};
use std::alloc::{AllocError, Global};

/// The calls of statements whose heads are timeless, derived or macro names, in order.
pub fn calls(
    alloc: Global,
    names: &Names,
    kinds: &Kinds,
    statements: &[Statement],
) -> Result<Vec<Edge>, AllocError>
    requires named { AreCalledNames kinds.now names.now }
    requires headed { All (λ statement. HasCalledHead kinds.now statement.body) statements.now }
    ensures named { IfOk result (λ edges. calls_by names.now edges.items ≡ flat_map (λ statement. calls_in kinds.now statement.body) statements.now) }
    ensures within { IfOk result (λ edges. AreWithin names.now edges.items) }
{
    let mut edges = Vec::new(alloc);
    for statement in statements {
        add_body(&mut edges, names, kinds, &statement.body)?;
    }
    Ok(edges)
}

fn add_body(
    edges: &mut Vec<Edge>,
    names: &Names,
    kinds: &Kinds,
    body: &Body,
) -> Result<(), AllocError>
    requires named { AreCalledNames kinds.now names.now }
    requires headed { HasCalledHead kinds.now body.now }
    ensures { OnOk result (AreAdded names.now edges.old.items edges.new.items (calls_in kinds.now body.now)) }
{
    match body {
        Body::Clause { head, conds } => add_conds(edges, names, kinds, head, conds.as_slice()),
        Body::MacroClause { head, items, .. } => {
            add_items(edges, names, kinds, head, items.as_slice())
        }
        _ => Ok(()),
    }
}

fn add_conds(
    edges: &mut Vec<Edge>,
    names: &Names,
    kinds: &Kinds,
    head: &Atom,
    conds: &[Cond],
) -> Result<(), AllocError>
    requires named { AreCalledNames kinds.now names.now }
    requires headed { is_called (kind_among kinds.now head.now.name) ≡ true }
    ensures { OnOk result (AreAdded names.now edges.old.items edges.new.items (flat_map (call_in_cond kinds.now head.now) conds.now)) }
{
    for cond in conds {
        add_cond(edges, names, kinds, head, cond)?;
    }
    Ok(())
}

fn add_cond(
    edges: &mut Vec<Edge>,
    names: &Names,
    kinds: &Kinds,
    head: &Atom,
    cond: &Cond,
) -> Result<(), AllocError>
    requires named { AreCalledNames kinds.now names.now }
    requires headed { is_called (kind_among kinds.now head.now.name) ≡ true }
    ensures { OnOk result (AreAdded names.now edges.old.items edges.new.items (call_in_cond kinds.now head.now cond.now)) }
{
    match cond {
        Cond::Lit(lit) => add_call(edges, names, kinds, head, lit.negated, false, &lit.atom),
        Cond::Built(_) => Ok(()),
    }
}

/// Adds the calls of the items of a macro clause. An item of a group guards the macro calls behind it.
fn add_items(
    edges: &mut Vec<Edge>,
    names: &Names,
    kinds: &Kinds,
    head: &Atom,
    items: &[Item],
) -> Result<(), AllocError>
    requires named { AreCalledNames kinds.now names.now }
    requires headed { is_called (kind_among kinds.now head.now.name) ≡ true }
    ensures { OnOk result (AreAdded names.now edges.old.items edges.new.items (calls_in_items kinds.now head.now false items.now)) }
{
    let mut guarded = false;
    for item in items {
        add_item(edges, names, kinds, head, guarded, item)?;
        guarded = guards(kinds, guarded, item);
    }
    Ok(())
}

/// Adds the call of an item, which is `guarded` where a group stands before it.
fn add_item(
    edges: &mut Vec<Edge>,
    names: &Names,
    kinds: &Kinds,
    head: &Atom,
    guarded: bool,
    item: &Item,
) -> Result<(), AllocError>
    requires named { AreCalledNames kinds.now names.now }
    requires headed { is_called (kind_among kinds.now head.now.name) ≡ true }
    ensures { OnOk result (AreAdded names.now edges.old.items edges.new.items (call_in_item kinds.now head.now guarded item.now)) }
{
    match item {
        Item::At(lit, _) => add_call(edges, names, kinds, head, lit.negated, false, &lit.atom),
        Item::Bare(lit) => add_call(edges, names, kinds, head, lit.negated, false, &lit.atom),
        Item::Span(atom, ..) => add_call(edges, names, kinds, head, false, guarded, atom),
        Item::Built(_) => Ok(()),
        Item::Con(_) => Ok(()),
    }
}

/// Adds the call of a literal under a head, where the literal's name has calls.
fn add_call(
    edges: &mut Vec<Edge>,
    names: &Names,
    kinds: &Kinds,
    head: &Atom,
    negated: bool,
    guarded: bool,
    atom: &Atom,
) -> Result<(), AllocError>
    requires named { AreCalledNames kinds.now names.now }
    requires headed { is_called (kind_among kinds.now head.now.name) ≡ true }
    ensures { OnOk result (AreAdded names.now edges.old.items edges.new.items (call_of kinds.now head.now negated guarded atom.now)) }
{
    let Some(caller) = names.number(&head.name) else {
        return Ok(());
    };
    let Some(callee) = names.number(&atom.name) else {
        return Ok(());
    };
    let is_strict = is_strict(kinds, head, negated, guarded, atom);
    edges.push(Edge {
        caller,
        callee,
        is_strict,
    })?;
    Ok(())
}

/// A negated call is strict, and so is one that neither descends nor is guarded.
fn is_strict(kinds: &Kinds, head: &Atom, negated: bool, guarded: bool, atom: &Atom) -> bool
    ensures { result ≡ (negated || not (descends_of kinds.now head.now atom.now || guarded)) }
{
    negated || !(descends(kinds, head, atom) || guarded)
}

/// Whether a group stands before the items after this one.
fn guards(kinds: &Kinds, guarded: bool, item: &Item) -> bool
    ensures { result ≡ (guarded || is_in_group_of kinds.now item.now) }
{
    guarded || is_in_group(kinds, item)
}

fn is_in_group(kinds: &Kinds, item: &Item) -> bool
    ensures { result ≡ is_in_group_of kinds.now item.now }
{
    match item {
        Item::Span(atom, ..) => matches!(kinds.kind(&atom.name), Some(Kind::Event | Kind::Action)),
        _ => false,
    }
}
