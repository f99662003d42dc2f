//! What wakes a node that waits.
ghost use Rattle.std.specs.Prelude.{◌≡◌, ℕ, IfOk, None};
ghost use Rattle.lps_model.specs.VariableLists.{term_vars};
ghost use Rattle.lps_windows.specs.Windows.{IsTime};
ghost use Rattle.lps_residual.specs.Moments.{IsReady, IsTimed};
ghost use Rattle.lps_residual.specs.Waking.{IsFound, IsWake, WakesAreOne, first_of, first_told, past, past_last, told_by};

use crate::seen::{see_term, see_unknowns};
use crate::waiting::window;
use lps_meaning::{LeftItem, Node, When};
use lps_model::Accepted;
use lps_terms::{Atom, Name, Term, copy_term};
use lps_windows::{Window, window_law};
use std::alloc::{AllocError, Global};

/// An event or action that is awaited: its name and, where that is known, its first argument.
#[derive(PartialEq, Eq, PartialOrd, Ord, Drop)]
pub struct Awaited {
    pub name: Name,
    pub first: Option<Term>,
}

/// What wakes a node. Until it is due, a cycle in which nothing happens that it awaits leaves it as it is.
#[derive(PartialEq, Eq, PartialOrd, Ord, Drop)]
pub struct Wake {
    pub awaited: Option<Awaited>,
    /// The first time at which the node has to be looked at whatever happens.
    pub due: u64,
}

/// What wakes a node: where its next step is an event or an action, one of that name and first argument, or that it can no longer come
/// true; where it is another step, that this may begin.
///
/// # Errors
/// `AllocError` where memory runs out.
pub fn wake_of(alloc: Global, text: &Accepted, node: &Node) -> Result<Wake, AllocError>
    requires node { IsReady text.now node.now }
    ensures { IfOk result (λ wake. IsWake text.now node.now wake) }
{
    window_law();
    match node.rest.get(0) {
        None => Ok(at_once()),
        Some(first) => match &first.item {
            LeftItem::At(_, time) => {
                let window = window_from(alloc, text, node, *time)?;
                Ok(Wake {
                    awaited: None,
                    due: first_of(window),
                })
            }
            LeftItem::Bare(_) => Ok(at_once()),
            LeftItem::Built(_) => Ok(at_once()),
            LeftItem::Span(atom, from, _) => {
                let window = window_from(alloc, text, node, *from)?;
                let awaited = awaited_as(alloc, atom)?;
                Ok(Wake {
                    awaited: Some(awaited),
                    due: past(window),
                })
            }
        },
    }
}

/// What has to be looked at in each cycle.
fn at_once() -> Wake
    ensures awaited { result.awaited ≡ None }
    ensures due { result.due ≡ 0 }
{
    Wake {
        awaited: None,
        due: 0,
    }
}

/// The window of a time of a node by its time conditions, where they have a solution and nothing in the node is large.
fn window_from(
    alloc: Global,
    text: &Accepted,
    node: &Node,
    time: When,
) -> Result<Option<Window>, AllocError>
    requires node { IsReady text.now node.now }
    requires time { (unknowns : ℕ) → IsTimed unknowns node.now → IsTime unknowns time }
    ensures { IfOk result (IsFound text.now node.now time) }
{
    let mut unknowns = Vec::new(alloc);
    see_unknowns(node, &mut unknowns)?;
    window(alloc, text, node, unknowns.len(), time)
}

/// The first time of a window; 0 where there is none.
fn first_of(window: Option<Window>) -> u64
    ensures { result ≡ first_of window }
{
    match window {
        None => 0,
        Some(window) => window.first,
    }
}

/// The time after the last of a window, as far as there is such a number; 0 where there is none.
fn past(window: Option<Window>) -> u64
    ensures { result ≡ past window }
{
    match window {
        None => 0,
        Some(window) => past_last(window.last),
    }
}

fn past_last(last: Option<u64>) -> u64
    ensures { result ≡ past_last last }
{
    match last {
        None => u64::MAX,
        Some(last) => last.saturating_add(1),
    }
}

/// The events of which each instance of an atom is one.
fn awaited_as(alloc: Global, atom: &Atom) -> Result<Awaited, AllocError>
    ensures { IfOk result (λ awaited. awaited ≡ record { name = atom.now.name; first = first_told atom.now.args }) }
{
    let name = atom.name.copy(alloc)?;
    let first = first_known(alloc, atom)?;
    Ok(Awaited { name, first })
}

/// The first argument of an atom, where it has one with no variables.
fn first_known(alloc: Global, atom: &Atom) -> Result<Option<Term>, AllocError>
    ensures { IfOk result (λ first. first ≡ first_told atom.now.args) }
{
    match atom.args.get(0) {
        None => Ok(None),
        Some(term) => known(alloc, term),
    }
}

/// The term, where it has no variables.
fn known(alloc: Global, term: &Term) -> Result<Option<Term>, AllocError>
    ensures { IfOk result (λ found. found ≡ told_by (term_vars term.now) term.now) }
{
    let mut variables = Vec::new(alloc);
    see_term(term, &mut variables)?;
    if !variables.is_empty() {
        return Ok(None);
    }
    Ok(Some(copy_term(alloc, term)?))
}

/// A node on which steps can be made is woken by one thing alone. It does nothing.
pub fn wake_law()
    ensures { WakesAreOne }
{}
