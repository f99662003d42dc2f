//! Tests of texts and streams: how they are read and printed, and why they are refused.
//!
//! It stands on the readers of texts and of streams, the printer and the judge of texts, and knows nothing of runs. It carries
//! no theorem: each table has texts, and what is to be said of them, worked out by hand from the language.
#![tactic(auto)]

#[cfg(test)]
mod accepted;
#[cfg(test)]
mod batches;
#[cfg(test)]
mod judge;
#[cfg(test)]
mod kinds;
#[cfg(test)]
mod levels;
#[cfg(test)]
mod limits;
#[cfg(test)]
mod lines;
#[cfg(test)]
mod modes;
#[cfg(test)]
mod order;
#[cfg(test)]
mod printing;
#[cfg(test)]
mod reasons;
#[cfg(test)]
mod refusals;
#[cfg(test)]
mod repeated;
#[cfg(test)]
mod tokens;
