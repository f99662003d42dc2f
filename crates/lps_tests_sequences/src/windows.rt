//! The windows of the times of a step under time conditions.
ghost use Rattle.std.specs.Prelude.{All, IsTrue};
ghost use Rattle.lps_windows.specs.Windows.{IsTime, IsWithin};

use lps_meaning::{LeftCon, When};
use lps_terms::TimeRel;
use lps_windows::{GREATEST_SHIFT, GREATEST_TIME, Window, window_of};
use std::alloc::Global;
use std::process::Abort;
use std::test::Fail;

/// The begin and the end of a step.
const BEGIN: When = When::Unknown(0);

const END: When = When::Unknown(1);

pub fn is_time(time: When) -> bool
    ensures { IsTrue result → IsTime 2 time }
{
    match time {
        When::Known(number) => number <= GREATEST_TIME,
        When::Unknown(number) => number < 2,
    }
}

pub fn is_within(condition: &LeftCon) -> bool
    ensures { IsTrue result → IsWithin 2 condition.now }
{
    is_time(condition.left)
        && is_time(condition.right)
        && -GREATEST_SHIFT <= condition.plus
        && condition.plus <= GREATEST_SHIFT
}

fn are_within(conditions: &[LeftCon]) -> bool
    ensures { IsTrue result → All (IsWithin 2) conditions.now }
{
    for condition in conditions {
        if !is_within(condition) {
            return false;
        }
    }
    true
}

/// The window of a time of the step.
fn window(alloc: Global, conditions: &[LeftCon], time: When) -> Result<Option<Window>, Fail> {
    if !are_within(conditions) || !is_time(time) {
        return Err(Fail::from("other times"));
    }
    Ok(window_of(alloc, 2, conditions, time)?)
}

/// A step that takes one cycle, begins two or more cycles after time 3, ends before time 20, and ends before it begins.
const CONDITIONS: [LeftCon; 4] = [
    LeftCon {
        left: END,
        rel: TimeRel::Equal,
        right: BEGIN,
        plus: 1,
    },
    LeftCon {
        left: BEGIN,
        rel: TimeRel::AtLeast,
        right: When::Known(3),
        plus: 2,
    },
    LeftCon {
        left: END,
        rel: TimeRel::Less,
        right: When::Known(20),
        plus: 0,
    },
    LeftCon {
        left: END,
        rel: TimeRel::AtMost,
        right: BEGIN,
        plus: -1,
    },
];

/// How many of the conditions are asked, of which time, and its window.
const WINDOWS: [(usize, When, Option<Window>); 5] = [
    (
        2,
        BEGIN,
        Some(Window {
            first: 5,
            last: None,
        }),
    ),
    (
        3,
        BEGIN,
        Some(Window {
            first: 5,
            last: Some(18),
        }),
    ),
    (
        3,
        END,
        Some(Window {
            first: 6,
            last: Some(19),
        }),
    ),
    (
        3,
        When::Known(7),
        Some(Window {
            first: 7,
            last: Some(7),
        }),
    ),
    (4, BEGIN, None),
];

#[test]
fn windows_of_a_step(rt: HostRuntime) -> Result<(), Fail> {
    for (count, time, want) in WINDOWS {
        let conditions = CONDITIONS.get(..count).ok_or("fewer conditions")?;
        let found = window(rt.alloc(), conditions, time)?;
        assert!(rt; found == want);
    }
    Ok(())
}
