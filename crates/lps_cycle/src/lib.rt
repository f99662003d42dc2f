//! A run from cycle to cycle: admission of the events of a batch, actions picked for the pending goals, the update of the state, and what
//! waits and what is pursued carried on.
//!
//! It stands on the trial of events, on what waits for antecedents, on goals that are pursued, on choosers, on limits, and on the
//! definitions of runs.
//! It knows nothing of streams, of printing, or of the bytes of a report. Its theorem is that the run over the batches so far stands as
//! the engine says (clauses `stands` of `Engine::start` and `Engine::cycle`): it is the plain run of the text over them, each cycle being
//! legal after those before; the facts are exactly the fluents that hold by persistence over the whole trace; the goals that a cycle
//! creates are exactly the keys of antecedents that come true in it, and those that it closes have their true status; and as many goals
//! are pending and have failed as the engine counts. No limit is exceeded, from before the first cycle to after the last; where one would
//! be, the cycle that was tried is told, and the run stands as it stood.
//!
//! Consequents call no macros so far, so that no goal is cut.
//!
//! Contracts cite these definitions:
//!
//! | file of `specs/` | defines |
//! |---|---|
//! | `Engine` | how a run stands between two cycles, and when it does not go on |
//! | `Admission` | which events of a batch are admitted |
//! | `Round` | what happens in a cycle that is being made, and what is decided of it |
//! | `Candidates` | what the pending goals propose, and which of them have a pick |
//! | `Agenda` | what waits and is pursued, and what a cycle makes of it |
//! | `Making` | what a cycle makes of a run |
#![tactic(auto)]

mod admission;
mod agenda;
mod candidates;
mod engine;
mod error;
mod round;

pub use engine::Engine;
pub use error::EngineError;
