//! What is left of a sequence: its canonical numbers, and whether it can still come true.
ghost use Rattle.std.specs.Prelude.{IsTrue};
ghost use Rattle.std.specs.List.{AllByRecursion};
ghost use Rattle.lps_residual.specs.Moments.{IsTimeOf, IsTimed};
ghost use Rattle.lps_windows.specs.Windows.{IsTime, IsWithin};

use crate::windows::{is_time, is_within};
use lps_meaning::{Carry, Left, LeftCon, LeftItem, Node, When};
use lps_model::Accepted;
use lps_residual::{are_same, can_come_true, in_numbers};
use lps_terms::{Term, TimeRel};
use lps_tests_written::{accepted_of, atom_of};
use sqlite_items::Items;
use std::alloc::Global;
use std::process::Abort;
use std::test::Fail;

fn is_time_of(item: &LeftItem) -> bool
    ensures { IsTrue result → IsTimeOf 2 item.now }
{
    match item {
        LeftItem::At(_, time) => is_time(*time),
        LeftItem::Bare(_) => true,
        LeftItem::Built(_) => true,
        LeftItem::Span(_, from, to) => is_time(*from) && is_time(*to),
    }
}

fn are_times_of(rest: &[Left]) -> bool
    ensures { IsTrue result → AllByRecursion (λ left. IsTimeOf 2 left.item) rest.now }
{
    for left in rest {
        if !is_time_of(&left.item) {
            return false;
        }
    }
    true
}

fn are_within(limits: &[LeftCon]) -> bool
    ensures { IsTrue result → AllByRecursion (IsWithin 2) limits.now }
{
    for limit in limits {
        if !is_within(limit) {
            return false;
        }
    }
    true
}

fn are_times(times: &[When]) -> bool
    ensures { IsTrue result → AllByRecursion (IsTime 2) times.now }
{
    for time in times {
        if !is_time(*time) {
            return false;
        }
    }
    true
}

fn is_timed(node: &Node) -> bool
    ensures { IsTrue result → IsTimed 2 node.now }
{
    are_times_of(node.rest.as_slice())
        && are_within(node.limits.as_slice())
        && are_times(node.carry.times.as_slice())
}

/// An event that is left, which ends by time 3, and carries a variable and the time of its end.
fn left(alloc: Global, event: &str, variable: u32, from: u32, to: u32) -> Result<Node, Fail> {
    let (from, to) = (When::Unknown(from), When::Unknown(to));
    let item = LeftItem::Span(atom_of(alloc, event)?, from, to);
    let limit = LeftCon {
        left: to,
        rel: TimeRel::AtMost,
        right: When::Known(3),
        plus: 0,
    };
    Ok(Node {
        alternative: 0,
        rank: Items::new(alloc),
        done: 1,
        carry: Carry {
            values: Items::from_vec(vec![in alloc; Term::Var(variable)]?),
            times: Items::from_vec(vec![in alloc; to]?),
        },
        rest: Items::from_vec(vec![in alloc; Left { item, nest: 0 }]?),
        limits: Items::from_vec(vec![in alloc; limit]?),
    })
}

/// Whether the node can come true after now.
fn can(alloc: Global, text: &Accepted, node: &Node, now: u64) -> Result<bool, Fail> {
    if !is_timed(node) || now > 1000000 {
        return Err(Fail::from("other times"));
    }
    Ok(can_come_true(alloc, text, node, 2, now)?)
}

/// Numbers go by where they first occur: in what is carried, and then in what is left.
#[test]
fn canonical_numbers(rt: HostRuntime) -> Result<(), Fail> {
    let alloc = rt.alloc();
    let numbered = in_numbers(alloc, &left(alloc, "e(k)", 7, 9, 4)?)?;
    assert_eq!(rt; numbered.variables, 1, "variables");
    assert_eq!(rt; numbered.unknowns, 2, "unknown times");
    let want = left(alloc, "e(k)", 0, 1, 0)?;
    assert_eq!(rt; are_same(&numbered.node, &want), true, "the same event");
    let other = left(alloc, "e(j)", 0, 1, 0)?;
    assert_eq!(rt; are_same(&numbered.node, &other), false, "another event");
    Ok(())
}

/// An event that has to end by time 3 can come true as long as it may begin at time 2.
#[test]
fn what_can_come_true(rt: HostRuntime) -> Result<(), Fail> {
    let alloc = rt.alloc();
    let text = Box::new(alloc, accepted_of(alloc, "event e/1.")?)?;
    let node = left(alloc, "e(k)", 0, 1, 0)?;
    assert_eq!(rt; can(alloc, &text, &node, 0)?, true, "at 0");
    assert_eq!(rt; can(alloc, &text, &node, 2)?, true, "at 2");
    assert_eq!(rt; can(alloc, &text, &node, 3)?, false, "at 3");
    Ok(())
}
