//! What is left behind an item that is met.
ghost use Rattle.std.specs.Prelude.{◌≡◌, suc, IfOk, MatchOption};
ghost use Rattle.std.specs.List.{AllByRecursion};
ghost use Rattle.lps_residual.specs.Limits.{HasFalse, IsOpenOrTrue};
ghost use Rattle.lps_residual.specs.Putting.{value_at, when_at};
ghost use Rattle.lps_meeting.specs.Stages.{IsFirst};
ghost use Rattle.lps_meeting.specs.Steps.{before_then, done_behind, is_span, limits_with, node_behind, stage_behind};
ghost use Rattle.lps_windows.specs.Bounds.{IsShort};

use crate::moment::Moment;
use crate::stage::Stage;
use crate::times::joins;
use lps_meaning::{LeftItem, Node, When};
use lps_residual::{Terms, Times, put_node, tested};
use lps_terms::Term;
use std::alloc::AllocError;

/// The stage once its first item is met with these values and times; none where a constraint is false then. An error comes where
/// memory runs out or no number is left for a group.
pub fn met(
    moment: &Moment<'_>,
    stage: &Stage,
    item: &LeftItem,
    values: &[Term],
    times: &[When],
) -> Result<Option<Stage>, AllocError>
    requires first { IsFirst stage.now item.now }
    requires short { AllByRecursion IsShort (limits_with stage.now (when_at times.now)) }
    ensures { IfOk result (λ found. MatchOption found (HasFalse (limits_with stage.now (when_at times.now))) (λ next. (next ≡ stage_behind stage.now moment.now.time (value_at values.now) (when_at times.now) item.now) × AllByRecursion IsOpenOrTrue (limits_with stage.now (when_at times.now)))) }
{
    match tested(moment.alloc, behind(moment, stage, item, values, times)?)? {
        None => Ok(None),
        Some(node) => Ok(Some(Stage {
            node,
            before: before_then(stage, item, moment.time),
            joins: is_span(item),
        })),
    }
}

/// What is left behind the first item, with these values and times put in.
fn behind(
    moment: &Moment<'_>,
    stage: &Stage,
    item: &LeftItem,
    values: &[Term],
    times: &[When],
) -> Result<Node, AllocError>
    requires first { IsFirst stage.now item.now }
    ensures { IfOk result (λ node. node ≡ node_behind stage.now moment.now.time (value_at values.now) (when_at times.now) item.now) }
{
    let done = done_then(stage, item, moment.time)?;
    let (terms, times) = (Terms::Given(values), Times::Given(times));
    let mut node = put_node(moment.alloc, terms, times, &stage.node)?;
    discard(node.rest.remove(0));
    node.done = done;
    Ok(node)
}

fn discard(_left: lps_meaning::Left) {}

/// When the last step ended at the latest once an item is met at this time.
fn before_then(stage: &Stage, item: &LeftItem, time: u64) -> u64
    ensures { result ≡ before_then stage.now.before time item.now }
{
    match item {
        LeftItem::At(_, _) => time,
        LeftItem::Bare(_) => stage.before,
        LeftItem::Built(_) => stage.before,
        LeftItem::Span(_, _, _) => time,
    }
}

fn is_span(item: &LeftItem) -> bool
    ensures { result ≡ is_span item.now }
{
    match item {
        LeftItem::Span(_, _, _) => true,
        _ => false,
    }
}

/// How many groups are done once an item is met at this time. An error comes where no number is left.
fn done_then(stage: &Stage, item: &LeftItem, time: u64) -> Result<u32, AllocError>
    ensures { IfOk result (λ done. done ≡ done_behind stage.now time item.now) }
{
    match item {
        LeftItem::At(_, _) => Ok(stage.node.done),
        LeftItem::Bare(_) => Ok(stage.node.done),
        LeftItem::Built(_) => Ok(stage.node.done),
        LeftItem::Span(_, from, to) => {
            if joins(stage, *from, *to, time) {
                Ok(stage.node.done)
            } else {
                one_more(stage.node.done)
            }
        }
    }
}

fn one_more(done: u32) -> Result<u32, AllocError>
    ensures { IfOk result (λ more. more ≡ suc done) }
{
    match done.checked_add(1) {
        Some(more) => Ok(more),
        None => Err(AllocError),
    }
}
