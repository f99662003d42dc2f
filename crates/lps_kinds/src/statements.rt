//! The refusals that are about whole statements.
ghost use Rattle.std.specs.Prelude.{◌≡◌};
ghost use Rattle.lps_model.specs.KindRefusals.{has_no_event as has_no_event_of, has_span as has_span_of, is_not_ground as is_not_ground_of, is_span as is_span_of, no_event as no_event_of, not_ground as not_ground_of, statement_refusal as statement_refusal_of};
ghost use Rattle.lps_model.specs.Variables.{hold_variables as hold_variables_of};

use lps_model::have_variables;
use lps_terms::{Atom, Body, Item, Refused, Statement};

/// The refusal of the first statement whose facts of the start hold a variable, or else of the first denial without an
/// event.
pub fn statement_refusal(statements: &[Statement]) -> Option<Refused>
    ensures { result ≡ statement_refusal_of statements.now }
{
    match not_ground(statements) {
        Some(refused) => Some(refused),
        None => no_event(statements),
    }
}

fn not_ground(statements: &[Statement]) -> Option<Refused>
    ensures { result ≡ not_ground_of statements.now }
{
    for statement in statements {
        if is_not_ground(&statement.body) {
            return Some(Refused::NotGround {
                line: statement.line,
            });
        }
    }
    None
}

fn no_event(statements: &[Statement]) -> Option<Refused>
    ensures { result ≡ no_event_of statements.now }
{
    for statement in statements {
        if has_no_event(&statement.body) {
            return Some(Refused::NoEvent {
                line: statement.line,
            });
        }
    }
    None
}

fn is_not_ground(body: &Body) -> bool
    ensures { result ≡ is_not_ground_of body.now }
{
    match body {
        Body::Initially(atoms) => hold_variables(atoms.as_slice()),
        _ => false,
    }
}

fn has_no_event(body: &Body) -> bool
    ensures { result ≡ has_no_event_of body.now }
{
    match body {
        Body::Denial(items) => !has_span(items.as_slice()),
        _ => false,
    }
}

fn has_span(items: &[Item]) -> bool
    ensures { result ≡ has_span_of items.now }
{
    for item in items {
        if is_span(item) {
            return true;
        }
    }
    false
}

fn is_span(item: &Item) -> bool
    ensures { result ≡ is_span_of item.now }
{
    match item {
        Item::Span(..) => true,
        _ => false,
    }
}

fn hold_variables(atoms: &[Atom]) -> bool
    ensures { result ≡ hold_variables_of atoms.now }
{
    for atom in atoms {
        if have_variables(atom.args.as_slice()) {
            return true;
        }
    }
    false
}
