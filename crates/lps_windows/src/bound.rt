ghost use Rattle.std.specs.Prelude.{◌≡◌, ◌++◌, ◌≤◌, All, IfOk, IfSome, OnOk, pos, negsuc, ◌≤ℤ◌};
ghost use Rattle.std.specs.List.{flat_map};
ghost use Rattle.lps_windows.specs.Bounds.{IsShort, IsSlack, bound_between, bounds_between, bounds_of, least_slack, most_slack, row_of, shift_of};

use lps_meaning::{LeftCon, When};
use lps_terms::TimeRel;
use std::alloc::{AllocError, Global};

/// That the time of a row is at most that of a column and a number. Row 0 stands for the time 0, and each other row for the
/// unknown time whose number is one less.
#[derive(Clone, Copy)]
pub struct Bound {
    pub row: usize,
    pub column: usize,
    pub most: i64,
}

/// The row of a time: that of an unknown time, or that of 0 for a known one.
pub fn row(time: When) -> usize
    ensures { result ≡ row_of time }
{
    match time {
        When::Known(_) => 0,
        When::Unknown(number) => number as usize + 1,
    }
}

/// How far a time lies behind that of its row.
pub fn shift(time: When) -> u64
    ensures { result ≡ shift_of time }
{
    match time {
        When::Known(number) => number,
        When::Unknown(_) => 0,
    }
}

/// The bound that one time is at most another and a number.
fn between(left: When, right: When, plus: i64) -> Bound
    requires left { shift_of left ≤ 1000000 }
    requires right { shift_of right ≤ 1000000 }
    requires low { negsuc 1000000 ≤ℤ plus }
    requires high { plus ≤ℤ pos 1000001 }
    ensures { result ≡ bound_between left right plus }
{
    Bound {
        row: row(left),
        column: row(right),
        most: plus + shift(right) as i64 - shift(left) as i64,
    }
}

/// Where two times stand in a relation, what may be added to the second such that the first is at most that, if anything.
fn most(rel: TimeRel) -> Option<i64>
    ensures slack { result ≡ most_slack rel }
    ensures small { IfSome result IsSlack }
{
    match rel {
        TimeRel::Less => Some(-1),
        TimeRel::AtMost | TimeRel::Equal => Some(0),
        TimeRel::AtLeast | TimeRel::Greater => None,
    }
}

/// The same for the second time and the first.
fn least(rel: TimeRel) -> Option<i64>
    ensures slack { result ≡ least_slack rel }
    ensures small { IfSome result IsSlack }
{
    match rel {
        TimeRel::Greater => Some(-1),
        TimeRel::AtLeast | TimeRel::Equal => Some(0),
        TimeRel::AtMost | TimeRel::Less => None,
    }
}

/// Adds the bound that one time is at most another, a number and this slack, if there is one.
fn push_bound(
    bounds: &mut Vec<Bound>,
    left: When,
    right: When,
    plus: i64,
    slack: Option<i64>,
) -> Result<(), AllocError>
    requires left { shift_of left ≤ 1000000 }
    requires right { shift_of right ≤ 1000000 }
    requires low { negsuc 999999 ≤ℤ plus }
    requires high { plus ≤ℤ pos 1000000 }
    requires slack { IfSome slack IsSlack }
    ensures { OnOk result (bounds.new.items ≡ bounds.old.items ++ bounds_between left right plus slack) }
{
    if let Some(slack) = slack {
        bounds.push(between(left, right, plus + slack))?;
    }
    Ok(())
}

/// Adds the bounds that make up a condition.
fn push_bounds(bounds: &mut Vec<Bound>, condition: LeftCon) -> Result<(), AllocError>
    requires { IsShort condition }
    ensures { OnOk result (bounds.new.items ≡ bounds.old.items ++ bounds_of condition) }
{
    let LeftCon {
        left,
        rel,
        right,
        plus,
    } = condition;
    push_bound(bounds, left, right, plus, most(rel))?;
    push_bound(bounds, right, left, -plus, least(rel))
}

/// The bounds that make up the conditions.
pub fn bounds(alloc: Global, conditions: &[LeftCon]) -> Result<Vec<Bound>, AllocError>
    requires { All IsShort conditions.now }
    ensures { IfOk result (λ bounds. bounds.items ≡ flat_map bounds_of conditions.now) }
{
    let mut bounds = Vec::new(alloc);
    for condition in conditions {
        push_bounds(&mut bounds, *condition)?;
    }
    Ok(bounds)
}
