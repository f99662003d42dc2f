//! The set of facts that a run changes, with a trail of the changes, so that it can be taken back.
//!
//! It stands on terms and their order, and knows nothing of texts, events or cycles. Its theorem is that each call leaves
//! exactly the set that it names (`Facts::insert`, `remove`, `apply`), and that `Facts::undo_to` gives back the value
//! at the mark (clause `back`).
#![tactic(auto)]

mod beginning;
mod change;
mod entries;
mod facts;
mod laws;
mod mark;
mod matching;
mod print;

pub use change::Change;
pub use facts::Facts;
pub use laws::{changes_go_back, members_after_changes};
pub use mark::Mark;
