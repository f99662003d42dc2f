//! Tests of what events do in one cycle: their effects, and the denials that they violate.
//!
//! It stands on trials of events and on the crates below them, and knows nothing of whole runs. It carries no theorem: each table has
//! texts and events, and what comes of them, worked out by hand.
#![tactic(auto)]

#[cfg(test)]
mod denials;
#[cfg(test)]
mod program;
