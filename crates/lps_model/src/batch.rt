use lps_terms::Atom;
use sqlite_items::Items;

/// A numbered batch of external events: the cycle that it is for, and its events in order.
#[derive(Drop)]
pub struct Batch {
    pub number: u64,
    pub events: Items<Atom>,
}
