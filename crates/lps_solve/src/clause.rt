use lps_terms::{Atom, Cond};
use sqlite_items::Items;

/// A clause: its head is true where its conditions are. Each of its variables has a number below `variables`.
#[derive(Drop)]
pub(crate) struct Clause {
    pub head: Atom,
    pub conds: Items<Cond>,
    pub variables: u64,
}
