//! The outside of a run, as three traits: texts by name, a source of bytes, and a desk that prints.
//!
//! It stands on nothing and knows nothing of texts, traces or reports: an object says in ghost members
//! which bytes it holds, where it tells them, and how often its calls failed. It carries no theorem of its
//! own: its clauses are the premises on which the clause of the top call stands.
#![tactic(auto)]

mod desk;
mod source;
mod texts;

pub use desk::Desk;
pub use source::Source;
pub use texts::Texts;

/// A call to the outside failed.
#[derive(Clone, Copy, Debug)]
pub struct Fault;
