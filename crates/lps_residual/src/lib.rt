//! What is left of a sequence, as a value: terms and times put into it, its canonical numbers, its time conditions, whether it can still
//! come true, what it proposes, and what wakes it.
//!
//! It stands on windows of times and on the definition of nodes, and never knows of a state, of what happens, of bindings or of what is
//! carried from cycle to cycle. Its theorems are that `can_come_true` says exactly whether a node waits, that `proposal` gives exactly the
//! group that a node proposes, and that a node for which `wake_of` is asked can come true until it is due, and is met until then by
//! nothing but an event that it awaits; equal nodes are woken by the same (`wake_law`).
//!
//! A node in canonical numbers is ready as far as the node was (`ready_numbered` in `proofs/Readying`), so what is known of nodes that are
//! given stays known of those that are made of them.
//!
//! Contracts cite these definitions:
//!
//! | file of `specs/` | defines |
//! |---|---|
//! | `Moments` | what holds of each node that is given: what has to be known is, and its times are in range |
//! | `Putting`, `Numbered` | nodes with terms and times put in, and nodes in canonical numbers |
//! | `Limits` | constraints whose times are all known |
//! | `Proposing` | the action that is next, and the atoms of its group |
//! | `Waking` | the event that a node awaits, and the time at which it is due |
#![tactic(auto)]

mod conditions;
mod limits;
mod numbered;
mod proposing;
mod put;
mod same;
mod seen;
mod size;
mod waiting;
mod waking;

pub use limits::tested;
pub use numbered::{Numbered, in_numbers};
pub use proposing::proposal;
pub use put::{Terms, Times, put_node};
pub use same::are_same;
pub use seen::{place_of, see_items, see_times};
pub use size::MOST_SYMBOLS;
pub use waiting::can_come_true;
pub use waking::{Awaited, Wake, wake_law, wake_of};
