//! Tests of sequences in time: the times that are possible under time conditions, what is left of a sequence, what waits for the
//! antecedents of rules, and how many symbols all that has.
//!
//! It stands on windows of times, on residuals, on what waits, on sizes and on limits, and knows nothing of runs. It carries no theorem.
#![tactic(auto)]

#[cfg(test)]
mod antecedents;
#[cfg(test)]
mod residuals;
#[cfg(test)]
mod sizes;
#[cfg(test)]
mod windows;
