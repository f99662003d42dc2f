//! The names of predicates in a text, with their places.
ghost use Rattle.std.specs.Prelude.{◌≡◌, ◌++◌, IfOk, OnOk};
ghost use Rattle.std.specs.List.{flat_map};
ghost use Rattle.lps_model.specs.Occurrences.{declaring, declaring_in, all_declared as all_declared_of, in_atom, in_body, in_cond, in_conds, in_item, in_items, occurrences as occurrences_of, place_under as place_under_of};

use lps_model::{Declaration, Kinds, Occurrence, Place};
use lps_terms::{Atom, Body, Cond, Decl, Item, Kind, Text};
use sqlite_items::Items;
use std::alloc::{AllocError, Global};

/// The names of predicates in a text, each with the line of its statement, its number of arguments and its place.
pub fn occurrences(alloc: Global, kinds: &Kinds, text: &Text) -> Result<Vec<Occurrence>, AllocError>
    ensures { IfOk result (λ found. found.items ≡ occurrences_of kinds.now text.now) }
{
    let mut found = Vec::new(alloc);
    for statement in text.statements.as_slice() {
        add_body(alloc, &mut found, kinds, statement.line, &statement.body)?;
    }
    Ok(found)
}

/// The names that a text declares, as often as it does.
pub fn all_declared(alloc: Global, text: &Text) -> Result<Vec<Declaration>, AllocError>
    ensures { IfOk result (λ found. found.items ≡ all_declared_of text.now) }
{
    let mut found = Vec::new(alloc);
    for statement in text.statements.as_slice() {
        add_declared(alloc, &mut found, statement.line, &statement.body)?;
    }
    Ok(found)
}

fn add_declared(
    alloc: Global,
    found: &mut Vec<Declaration>,
    line: u32,
    body: &Body,
) -> Result<(), AllocError>
    ensures { OnOk result (found.new.items ≡ found.old.items ++ declaring_in line body.now) }
{
    if let Body::Declare(decls) = body {
        for decl in decls.as_slice() {
            add_declaration(alloc, found, line, decl)?;
        }
    }
    Ok(())
}

fn add_declaration(
    alloc: Global,
    found: &mut Vec<Declaration>,
    line: u32,
    decl: &Decl,
) -> Result<(), AllocError>
    ensures { OnOk result (found.new.items ≡ found.old.items ++ declaring line decl.now) }
{
    let name = decl.name.copy(alloc)?;
    found.push(Declaration { line, name })?;
    Ok(())
}

fn add_body(
    alloc: Global,
    found: &mut Vec<Occurrence>,
    kinds: &Kinds,
    line: u32,
    body: &Body,
) -> Result<(), AllocError>
    ensures { OnOk result (found.new.items ≡ found.old.items ++ in_body kinds.now line body.now) }
{
    match body {
        Body::Declare(_) => Ok(()),
        Body::Initially(atoms) => add_initial(alloc, found, line, atoms.as_slice()),
        Body::Denial(items) => add_items(alloc, found, line, Place::Seen, items.as_slice()),
        Body::Rule {
            antecedent,
            alternatives,
        } => {
            add_items(alloc, found, line, Place::Seen, antecedent.as_slice())?;
            add_alternatives(alloc, found, line, alternatives.as_slice())
        }
        Body::Law {
            event,
            fluent,
            conds,
            ..
        } => {
            add_atom(alloc, found, line, Place::Trigger, event)?;
            add_atom(alloc, found, line, Place::Effect, fluent)?;
            add_conds(alloc, found, line, Place::Condition, conds.as_slice())
        }
        Body::Clause { head, conds } => {
            let place = place_under(kinds.kind(&head.name));
            add_atom(alloc, found, line, Place::Head, head)?;
            add_conds(alloc, found, line, place, conds.as_slice())
        }
        Body::MacroClause { head, items, .. } => {
            add_atom(alloc, found, line, Place::MacroHead, head)?;
            add_items(alloc, found, line, Place::Done, items.as_slice())
        }
    }
}

/// The place of the conditions of a clause whose head has this kind.
fn place_under(kind: Option<Kind>) -> Place
    ensures { result ≡ place_under_of kind }
{
    match kind {
        Some(Kind::Timeless) => Place::TimelessCondition,
        _ => Place::Condition,
    }
}

fn add_initial(
    alloc: Global,
    found: &mut Vec<Occurrence>,
    line: u32,
    atoms: &[Atom],
) -> Result<(), AllocError>
    ensures { OnOk result (found.new.items ≡ found.old.items ++ flat_map (in_atom line Place.Initial) atoms.now) }
{
    for atom in atoms {
        add_atom(alloc, found, line, Place::Initial, atom)?;
    }
    Ok(())
}

fn add_alternatives(
    alloc: Global,
    found: &mut Vec<Occurrence>,
    line: u32,
    alternatives: &[Items<Item>],
) -> Result<(), AllocError>
    ensures { OnOk result (found.new.items ≡ found.old.items ++ flat_map (in_items line Place.Done) alternatives.now) }
{
    for items in alternatives {
        add_items(alloc, found, line, Place::Done, items.as_slice())?;
    }
    Ok(())
}

fn add_items(
    alloc: Global,
    found: &mut Vec<Occurrence>,
    line: u32,
    span: Place,
    items: &[Item],
) -> Result<(), AllocError>
    ensures { OnOk result (found.new.items ≡ found.old.items ++ in_items line span items.now) }
{
    for item in items {
        add_item(alloc, found, line, span, item)?;
    }
    Ok(())
}

/// Adds the name in an item. What goes from a time to a time stands at `span`.
fn add_item(
    alloc: Global,
    found: &mut Vec<Occurrence>,
    line: u32,
    span: Place,
    item: &Item,
) -> Result<(), AllocError>
    ensures { OnOk result (found.new.items ≡ found.old.items ++ in_item line span item.now) }
{
    match item {
        Item::At(lit, _) => add_atom(alloc, found, line, Place::AtTime, &lit.atom),
        Item::Bare(lit) => add_atom(alloc, found, line, Place::Untimed, &lit.atom),
        Item::Built(_) => Ok(()),
        Item::Span(atom, _, _) => add_atom(alloc, found, line, span, atom),
        Item::Con(_) => Ok(()),
    }
}

fn add_conds(
    alloc: Global,
    found: &mut Vec<Occurrence>,
    line: u32,
    place: Place,
    conds: &[Cond],
) -> Result<(), AllocError>
    ensures { OnOk result (found.new.items ≡ found.old.items ++ in_conds line place conds.now) }
{
    for cond in conds {
        add_cond(alloc, found, line, place, cond)?;
    }
    Ok(())
}

fn add_cond(
    alloc: Global,
    found: &mut Vec<Occurrence>,
    line: u32,
    place: Place,
    cond: &Cond,
) -> Result<(), AllocError>
    ensures { OnOk result (found.new.items ≡ found.old.items ++ in_cond line place cond.now) }
{
    match cond {
        Cond::Lit(lit) => add_atom(alloc, found, line, place, &lit.atom),
        Cond::Built(_) => Ok(()),
    }
}

fn add_atom(
    alloc: Global,
    found: &mut Vec<Occurrence>,
    line: u32,
    place: Place,
    atom: &Atom,
) -> Result<(), AllocError>
    ensures { OnOk result (found.new.items ≡ found.old.items ++ in_atom line place atom.now) }
{
    let name = atom.name.copy(alloc)?;
    let count = atom.args.len();
    found.push(Occurrence {
        line,
        name,
        count,
        place,
    })?;
    Ok(())
}
