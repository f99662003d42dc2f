//! The outside of a run in memory, for tests and for runs that are planned: texts, a stream, and a desk.
//!
//! It stands on the traits of the outside and on no other crate, and knows nothing of texts, traces or reports:
//! each object tells all its bytes, and fails at the calls whose numbers it was given. It carries no theorem of
//! its own: beside the clauses of the traits, clauses `fails`, `sure` and `count` of the reads and `outcome` of
//! `print` say exactly when a call fails and which bytes it moves.
#![tactic(auto)]

mod calls;
mod copy;
mod mem_desk;
mod mem_source;
mod mem_texts;
mod sure_source;
mod sure_texts;

pub use mem_desk::MemDesk;
pub use mem_source::MemSource;
pub use mem_texts::MemTexts;
pub use sure_source::SureSource;
pub use sure_texts::SureTexts;
