//! The time conditions of what is left of a sequence.
ghost use Rattle.std.specs.Prelude.{◌≡◌, ◌++◌, IfOk, OnOk, None, option_copied};
ghost use Rattle.lps_model.specs.Order.{happens, is_action};
ghost use Rattle.lps_model.specs.Rules.{is_macro, kind_of};
ghost use Rattle.lps_nodes.specs.Conditions.{are_together, goes_on, is_same_time};
ghost use Rattle.lps_nodes.specs.Nodes.{left_in};
ghost use Rattle.lps_windows.specs.Conditions.{conditions_of, end_of, item_conditions, next_after, no_earlier, no_later, order_conditions, same_end, span_conditions};

use lps_meaning::{Left, LeftCon, LeftItem, Node, When};
use lps_model::Accepted;
use lps_terms::{Atom, Kind, TimeRel};
use std::alloc::{AllocError, Global};

/// The time conditions of a node, but for that its next step begins after now.
pub fn conditions(alloc: Global, text: &Accepted, node: &Node) -> Result<Vec<LeftCon>, AllocError>
    ensures { IfOk result (λ found. found.items ≡ conditions_of text.now (left_in node.now)) }
{
    let mut conditions = in_order(alloc, text, node.rest.as_slice())?;
    conditions.extend_from_slice(node.limits.as_slice())?;
    Ok(conditions)
}

/// That the items stand in order.
fn in_order(alloc: Global, text: &Accepted, rest: &[Left]) -> Result<Vec<LeftCon>, AllocError>
    ensures { IfOk result (λ found. found.items ≡ order_conditions text.now None None rest.now) }
{
    let mut conditions = Vec::new(alloc);
    let mut before = None;
    let mut last = None;
    for left in rest {
        let joins = goes_on(text, last, &left.item);
        add_item(text, before, joins, &left.item, &mut conditions)?;
        before = end_of(before, &left.item);
        last = Some(&left.item);
    }
    Ok(conditions)
}

/// Whether an item goes on with the group of the one before it.
fn goes_on(text: &Accepted, before: Option<&LeftItem>, item: &LeftItem) -> bool
    ensures { result ≡ goes_on text.now (option_copied before.entry) item.now }
{
    match before {
        None => false,
        Some(before) => are_together(text, before, item),
    }
}

/// Whether two adjacent items are of one group.
pub fn are_together(text: &Accepted, item: &LeftItem, next: &LeftItem) -> bool
    ensures { result ≡ are_together text.now item.now next.now }
{
    match (item, next) {
        (LeftItem::Span(a, a_from, a_to), LeftItem::Span(b, b_from, b_to)) => {
            happens(text, a)
                && happens(text, b)
                && is_same_time(*a_from, *b_from)
                && is_same_time(*a_to, *b_to)
        }
        _ => false,
    }
}

fn is_same_time(time: When, other: When) -> bool
    ensures { result ≡ is_same_time time other }
{
    match (time, other) {
        (When::Known(n), When::Known(m)) => n == m,
        (When::Unknown(j), When::Unknown(k)) => j == k,
        _ => false,
    }
}

/// Whether an atom is one of an event or an action.
fn happens(text: &Accepted, atom: &Atom) -> bool
    ensures { result ≡ happens (kind_of text.now atom.now.name) }
{
    match text.kind(&atom.name) {
        Some(Kind::Event) => true,
        Some(Kind::Action) => true,
        _ => false,
    }
}

/// Whether an atom is one of an action.
pub fn is_action(text: &Accepted, atom: &Atom) -> bool
    ensures { result ≡ is_action (kind_of text.now atom.now.name) }
{
    match text.kind(&atom.name) {
        Some(Kind::Action) => true,
        _ => false,
    }
}

/// Whether an atom is a macro call.
pub fn is_call(text: &Accepted, atom: &Atom) -> bool
    ensures { result ≡ is_macro (kind_of text.now atom.now.name) }
{
    match text.kind(&atom.name) {
        Some(Kind::Macro) => true,
        _ => false,
    }
}

/// When an item ends, or else what was before.
fn end_of(before: Option<When>, item: &LeftItem) -> Option<When>
    ensures { result ≡ end_of before item.now }
{
    match item {
        LeftItem::At(_, time) => Some(*time),
        LeftItem::Bare(_) => before,
        LeftItem::Built(_) => before,
        LeftItem::Span(_, _, to) => Some(*to),
    }
}

/// Adds where an item may stand after a step that ended before, if there is one.
fn add_item(
    text: &Accepted,
    before: Option<When>,
    joins: bool,
    item: &LeftItem,
    conditions: &mut Vec<LeftCon>,
) -> Result<(), AllocError>
    ensures { OnOk result (conditions.new.items ≡ conditions.old.items ++ item_conditions text.now before joins item.now) }
{
    match item {
        LeftItem::At(_, time) => no_earlier(before, *time, conditions),
        LeftItem::Bare(_) => Ok(()),
        LeftItem::Built(_) => Ok(()),
        LeftItem::Span(atom, from, to) => {
            add_span(is_call(text, atom), joins, before, *from, *to, conditions)
        }
    }
}

fn add_span(
    is_call: bool,
    joins: bool,
    before: Option<When>,
    from: When,
    to: When,
    conditions: &mut Vec<LeftCon>,
) -> Result<(), AllocError>
    ensures { OnOk result (conditions.new.items ≡ conditions.old.items ++ span_conditions is_call joins before from to) }
{
    if is_call {
        no_earlier(before, from, conditions)?;
        return no_later(from, to, conditions);
    }
    next_after(from, to, conditions)?;
    if joins {
        same_end(before, to, conditions)
    } else {
        no_earlier(before, from, conditions)
    }
}

fn no_later(first: When, second: When, conditions: &mut Vec<LeftCon>) -> Result<(), AllocError>
    ensures { OnOk result (conditions.new.items ≡ conditions.old.items ++ no_later first second) }
{
    conditions.push(LeftCon {
        left: first,
        rel: TimeRel::AtMost,
        right: second,
        plus: 0,
    })?;
    Ok(())
}

fn no_earlier(
    before: Option<When>,
    time: When,
    conditions: &mut Vec<LeftCon>,
) -> Result<(), AllocError>
    ensures { OnOk result (conditions.new.items ≡ conditions.old.items ++ no_earlier before time) }
{
    match before {
        None => Ok(()),
        Some(before) => no_later(before, time, conditions),
    }
}

fn same_end(
    before: Option<When>,
    time: When,
    conditions: &mut Vec<LeftCon>,
) -> Result<(), AllocError>
    ensures { OnOk result (conditions.new.items ≡ conditions.old.items ++ same_end before time) }
{
    match before {
        None => Ok(()),
        Some(before) => {
            conditions.push(LeftCon {
                left: time,
                rel: TimeRel::Equal,
                right: before,
                plus: 0,
            })?;
            Ok(())
        }
    }
}

fn next_after(from: When, to: When, conditions: &mut Vec<LeftCon>) -> Result<(), AllocError>
    ensures { OnOk result (conditions.new.items ≡ conditions.old.items ++ next_after from to) }
{
    conditions.push(LeftCon {
        left: to,
        rel: TimeRel::Equal,
        right: from,
        plus: 1,
    })?;
    Ok(())
}
