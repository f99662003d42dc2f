//! Whether what is left of a sequence can still come true, by its time conditions.
ghost use Rattle.std.specs.Prelude.{◌↔◌, ◌≤◌, IfOk, IsTrue, MatchOption};
ghost use Rattle.lps_nodes.specs.Conditions.{CanComeTrue};
ghost use Rattle.lps_nodes.specs.Nodes.{left_in};
ghost use Rattle.lps_residual.specs.Moments.{HasNoBegin, IsBegin, IsOpenOn, IsTimed, IsWindowOf, MeetsNone};
ghost use Rattle.lps_windows.specs.Windows.{IsTime};

use crate::conditions::conditions;
use crate::size::are_small;
use lps_meaning::{LeftItem, Node, When};
use lps_model::Accepted;
use lps_windows::{Window, window_law, window_of};
use std::alloc::{AllocError, Global};

/// When a step begins, and the earliest time that it may after now.
#[derive(Clone, Copy)]
pub struct Begin {
    pub time: When,
    pub earliest: u64,
}

/// Whether what is left in a node can come true after now: its time conditions have a solution in which its next step, which
/// is its first item, begins after now, and nothing is large.
#[tactic(auto, using(crate::proofs::Waits::with_begin, crate::proofs::Waits::without_begin))]
pub fn can_come_true(
    alloc: Global,
    text: &Accepted,
    node: &Node,
    unknowns: usize,
    now: u64,
) -> Result<bool, AllocError>
    requires timed { IsTimed unknowns node.now }
    requires now { now ≤ 1000000 }
    ensures { IfOk result (λ can. IsTrue can ↔ CanComeTrue text.now now (left_in node.now)) }
{
    window_law();
    match first_begin(node, unknowns, now) {
        None => Ok(false),
        Some(begin) => is_open(alloc, text, node, unknowns, begin),
    }
}

/// Whether the step that begins so may begin by the time conditions of the node.
fn is_open(
    alloc: Global,
    text: &Accepted,
    node: &Node,
    unknowns: usize,
    begin: Begin,
) -> Result<bool, AllocError>
    requires timed { IsTimed unknowns node.now }
    requires time { IsTime unknowns begin.time }
    ensures { IfOk result (λ may. IsOpenOn may text.now node.now begin.time begin.earliest) }
{
    match window(alloc, text, node, unknowns, begin.time)? {
        None => Ok(false),
        Some(window) => Ok(window.is_open_from(begin.earliest)),
    }
}

/// The begin of the next step of a node, where its first item is a step.
pub fn first_begin(node: &Node, unknowns: usize, now: u64) -> Option<Begin>
    requires timed { IsTimed unknowns node.now }
    requires now { now ≤ 1000000 }
    ensures { MatchOption result (HasNoBegin node.now) (λ begin. IsBegin unknowns node.now now begin) }
{
    let _unknowns = unknowns;
    match &node.rest.get(0)?.item {
        LeftItem::At(_, time) => Some(Begin {
            time: *time,
            earliest: now + 1,
        }),
        LeftItem::Bare(_) => None,
        LeftItem::Built(_) => None,
        LeftItem::Span(_, from, _) => Some(Begin {
            time: *from,
            earliest: now,
        }),
    }
}

/// The window of a time of a node by its time conditions, where they have a solution and nothing in the node is large.
#[tactic(auto, using(crate::proofs::InRange::all_within))]
pub fn window(
    alloc: Global,
    text: &Accepted,
    node: &Node,
    unknowns: usize,
    time: When,
) -> Result<Option<Window>, AllocError>
    requires timed { IsTimed unknowns node.now }
    requires time { IsTime unknowns time }
    ensures { IfOk result (λ found. MatchOption found (MeetsNone text.now node.now) (IsWindowOf text.now node.now time)) }
{
    if !are_small(node.rest.as_slice()) {
        return Ok(None);
    }
    let conditions = conditions(alloc, text, node)?;
    window_of(alloc, unknowns, conditions.as_slice(), time)
}
