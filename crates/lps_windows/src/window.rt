ghost use Rattle.std.specs.Prelude.{◌≡◌, ◌*◌, ◌<◌, ◌≤◌, ◌↔◌, ◌≤ℤ◌, ◌-ℤ◌, pos, All, IfOk, IsTrue, MatchOption, length};
ghost use Rattle.lps_windows.specs.Bounds.{row_of, shift_of};
ghost use Rattle.lps_windows.specs.Matrices.{IsEnded, entry, horizon};
ghost use Rattle.lps_windows.specs.Ends.{IsShifted};
ghost use Rattle.lps_windows.specs.Windows.{HaveNoSolution, IsIn, IsOpenFrom, IsTime, IsWindow, IsWithin};

use crate::MOST_UNKNOWNS;
use crate::bound::{bounds, row, shift};
use crate::matrix::{at, closed};
use lps_meaning::{LeftCon, When};
use std::alloc::{AllocError, Global};

/// The times from the first to the last, or all from the first on where there is no last.
#[derive(Clone, Copy, PartialEq, Eq)]
pub struct Window {
    pub first: u64,
    pub last: Option<u64>,
}

impl Window {
    /// Whether a time lies in the window.
    pub fn contains(self, time: u64) -> bool
        ensures { IsTrue result ↔ IsIn self time }
    {
        match self.last {
            None => self.first <= time,
            Some(last) => self.first <= time && time <= last,
        }
    }

    /// Whether a time, or one after it, lies in the window.
    pub fn is_open_from(self, time: u64) -> bool
        requires { IsIn self self.first }
        ensures { IsTrue result ↔ IsOpenFrom self time }
    {
        match self.last {
            None => true,
            Some(last) => time <= last,
        }
    }
}

/// A last value from here on is only that of the horizon.
const UNBOUNDED: i64 = 500_000_000_000_000;

/// The window of the values from the least to the greatest, each shifted.
fn shifted(least: i64, greatest: i64, shift: u64) -> Window
    requires some { pos 0 ≤ℤ least }
    requires ordered { least ≤ℤ greatest }
    requires low { greatest ≤ℤ pos horizon }
    requires shift { shift ≤ 1000000 }
    ensures { IsShifted least greatest shift result }
{
    let last = if greatest < UNBOUNDED {
        Some(greatest as u64 + shift)
    } else {
        None
    };
    Window {
        first: least as u64 + shift,
        last,
    }
}

/// The window of a time by the closed matrix.
fn ends(numbers: &[i64], size: usize, time: When) -> Window
    requires fits { size ≤ 1000001 }
    requires row { row_of time < size }
    requires shift { shift_of time ≤ 1000000 }
    requires count { length numbers.now ≡ size * size }
    requires matrix { IsEnded size (entry size numbers.now) }
    ensures { IsShifted (pos 0 -ℤ entry size numbers.now 0 (row_of time)) (entry size numbers.now (row_of time) 0) (shift_of time) result }
{
    let row = row(time);
    shifted(
        -at(numbers, size, 0, row),
        at(numbers, size, row, 0),
        shift(time),
    )
}

/// The window of the values that a time takes in the solutions of the conditions; none where they have no solution.
///
/// The unknown times are numbered from 0, below `unknowns`. The steps taken are at most cubic in their number, and the memory
/// quadratic.
///
/// # Errors
/// `AllocError` where memory runs out.
pub fn window_of(
    alloc: Global,
    unknowns: usize,
    conditions: &[LeftCon],
    time: When,
) -> Result<Option<Window>, AllocError>
    requires few { unknowns ≤ MOST_UNKNOWNS }
    requires within { All (IsWithin unknowns) conditions.now }
    requires time { IsTime unknowns time }
    ensures { IfOk result (λ found. MatchOption found (HaveNoSolution conditions.now) (IsWindow conditions.now time)) }
{
    let size = unknowns + 1;
    let bounds = bounds(alloc, conditions)?;
    match closed(alloc, bounds.as_slice(), size)? {
        None => Ok(None),
        Some(numbers) => Ok(Some(ends(numbers.as_slice(), size, time))),
    }
}
