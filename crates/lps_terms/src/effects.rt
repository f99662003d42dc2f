use crate::atom::Atom;
use sqlite_items::Items;

/// What the events of a cycle do to the state.
#[derive(Drop)]
pub struct Effects {
    pub initiated: Items<Atom>,
    pub terminated: Items<Atom>,
}
