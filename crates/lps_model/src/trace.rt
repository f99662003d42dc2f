use crate::Cycle;
use lps_terms::Atom;
use sqlite_items::Items;

/// The initial facts, sorted and each once, and the cycles of a run.
#[derive(Drop)]
pub struct Trace {
    pub initial: Items<Atom>,
    pub cycles: Items<Cycle>,
}
