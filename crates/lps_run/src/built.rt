//! Which texts are run so far.
ghost use Rattle.std.specs.Prelude.{◌≡◌};
ghost use Rattle.std.specs.List.{list_any};
ghost use Rattle.lps_meaning.specs.Sequences.{is_call as is_call_of};
ghost use Rattle.lps_model.specs.Rules.{is_macro as is_macro_of};
ghost use Rattle.lps_run.specs.Built.{first_not_built as first_not_built_of, has_call as has_call_of, is_built as is_built_of, not_built as not_built_of};

use lps_model::Accepted;
use lps_terms::{Body, Item, Kind, Statement};
use sqlite_items::Items;

fn is_macro(kind: Option<Kind>) -> bool
    ensures { result ≡ is_macro_of kind }
{
    match kind {
        Some(Kind::Macro) => true,
        _ => false,
    }
}

/// Whether an item is a macro call.
fn is_call(text: &Accepted, item: &Item) -> bool
    ensures { result ≡ is_call_of text.now item.now }
{
    match item {
        Item::Span(atom, _, _) => is_macro(text.kind(&atom.name)),
        _ => false,
    }
}

/// Whether one of the items is a macro call.
fn has_call(text: &Accepted, items: &[Item]) -> bool
    ensures { result ≡ has_call_of text.now items.now }
{
    items.iter().any(|item| is_call(text, item))
}

/// Whether one of the alternatives has a macro call.
fn have_call(text: &Accepted, alternatives: &[Items<Item>]) -> bool
    ensures { result ≡ list_any (has_call_of text.now) alternatives.now }
{
    alternatives
        .iter()
        .any(|items| has_call(text, items.as_slice()))
}

/// Whether a statement is no macro clause, and no reactive rule of which an alternative calls a macro.
fn is_built(text: &Accepted, body: &Body) -> bool
    ensures { result ≡ is_built_of text.now body.now }
{
    match body {
        Body::Rule {
            antecedent: _,
            alternatives,
        } => !have_call(text, alternatives.as_slice()),
        Body::MacroClause {
            head: _,
            begin: _,
            end: _,
            items: _,
        } => false,
        _ => true,
    }
}

fn first_not_built(text: &Accepted, statements: &[Statement]) -> Option<u32>
    ensures { result ≡ first_not_built_of text.now statements.now }
{
    for statement in statements {
        if !is_built(text, &statement.body) {
            return Some(statement.line);
        }
    }
    None
}

/// The line of the first statement of a text that is not run.
pub fn not_built(text: &Accepted) -> Option<u32>
    ensures { result ≡ not_built_of text.now }
{
    first_not_built(text, text.text().statements.as_slice())
}
