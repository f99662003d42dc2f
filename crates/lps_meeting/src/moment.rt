use lps_facts::Facts;
use lps_solve::Program;
use lps_terms::Atom;
use std::alloc::Global;

/// The time at which steps are made: its state and what happens in its cycle, which is nothing where a sequence is entered.
#[derive(Clone, Copy)]
pub struct Moment<'a> {
    pub alloc: Global,
    pub program: &'a Program,
    pub facts: &'a Facts,
    pub events: &'a [Atom],
    pub time: u64,
    /// More than the number of each variable of the node that steps are made on.
    pub variables: u32,
    /// More than the number of each of its unknown times.
    pub unknowns: u32,
}
