use crate::term::Term;
use sqlite_items::Items;

/// An answer: a value for each variable that was asked for, in the order of their numbers.
#[derive(Drop)]
pub struct Values(pub Items<Term>);
