//! Tests of runs: what is printed and answered for texts, streams, words, and calls to the outside that fail.
//!
//! It stands on the top call and on an outside in memory, and knows nothing of the crates between. It carries no theorem:
//! each table has texts, streams and the bytes that are to be printed, worked out by hand from the language.
#![tactic(auto)]

#[cfg(test)]
mod call;
#[cfg(test)]
mod checks;
#[cfg(test)]
mod faults;
#[cfg(test)]
mod goals;
#[cfg(test)]
mod refusals;
#[cfg(test)]
mod reports;
#[cfg(test)]
mod states;
#[cfg(test)]
mod words;
