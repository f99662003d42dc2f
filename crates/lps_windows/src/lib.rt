//! Which times are possible under the time conditions of what is left of a sequence: a decision made once, so that what is asked
//! later of a cycle is a comparison with the first and the last of them.
//!
//! It stands on the conditions themselves, and never knows of bindings, of events or of what is carried from cycle to cycle.
//! Its theorem is that a window has exactly the values that a time takes in solutions in natural numbers, and that there is none
//! exactly where there is no solution (the contract of `window_of`). The law `window_law` says what that decides of a node: what
//! is left can come true exactly where the window of its next step is open from now on.
//!
//! Conditions are closed under sums, one row of a matrix after another. Each unknown time is taken to be at most a horizon that
//! lies further off than all conditions together can reach, so no sum leaves an `i64`; wide gaps in a solution can be closed, so
//! the horizon loses none.
//!
//! Contracts cite these definitions:
//!
//! | file of `specs/` | defines |
//! |---|---|
//! | `Windows` | what a solution is, which times lie in a window, and the limits on conditions |
//! | `Bounds` | conditions as bounds on the difference of two times |
//! | `Matrices` | the matrix of the tightest bounds, and how it is closed |
//! | `Ends` | the ends of a window |
//! | `Conditions` | the time conditions of what is left of a sequence, and the law that windows decide them |
#![tactic(auto)]

mod bound;
mod laws;
mod matrix;
mod window;

pub use laws::window_law;
pub use window::{Window, window_of};

/// The greatest time that may be known in a condition.
pub const GREATEST_TIME: u64 = 1_000_000;

/// By how much a condition may shift a time, later or earlier.
pub const GREATEST_SHIFT: i64 = 1_000_000;

/// How many unknown times there may be.
pub const MOST_UNKNOWNS: usize = 1_000_000;
