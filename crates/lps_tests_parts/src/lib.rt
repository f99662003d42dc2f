//! Tests of the parts that a run is made of: terms and names, sets of facts, unification, values, choosers, the bytes of a report, and
//! an outside in memory.
//!
//! It stands on these parts and on the reader of texts, by which terms, atoms and conditions are written as texts, and knows
//! nothing of cycles or of whole runs. It carries no theorem: each table has texts, and what a part makes of them, worked out by hand.
#![tactic(auto)]

#[cfg(test)]
mod blocks;
mod board;
#[cfg(test)]
mod changes;
#[cfg(test)]
mod choices;
#[cfg(test)]
mod conditions;
#[cfg(test)]
mod names;
#[cfg(test)]
mod orders;
#[cfg(test)]
mod outside;
#[cfg(test)]
mod patterns;
#[cfg(test)]
mod towers;
#[cfg(test)]
mod unifiers;
