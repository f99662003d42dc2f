//! What wakes those that wait, found by the events of a cycle and by its time.
//!
//! It stands on what wakes a node, and never knows of nodes, of goals, of a state or of a trace. Its theorem is that of all wakes that it
//! has it finds exactly those that a cycle touches (clause `exact` of `Watch::touched`), by looking at no others: wakes lie side by side by
//! the event that they await, and by the time at which they are due.
//!
//! Contracts cite these definitions:
//!
//! | file of `specs/` | defines |
//! |---|---|
//! | `Orders` | the orders of wakes |
//! | `Watches` | what holds of a list of wakes, by event and by time, and what is added to one |
#![tactic(auto)]

mod copying;
mod due;
mod finding;
mod sets;
mod watch;

pub use copying::copy_wake;
pub use watch::Watch;
