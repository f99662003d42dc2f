//! The effects of events by the causal laws of a text.
//!
//! It stands on the instances of conditions over a set of facts, on the index of a text, and on the meaning of laws, and knows
//! nothing of denials, of goals or of a run. Its theorem is that `CausalLaws::effects` gives exactly the fluents that the events
//! initiate, and those that they terminate and do not initiate, read in the state before (clause `effects`); that such effects
//! make the next state of this one (`effects_make_the_next_state`), and that those of more events are made on top of those before
//! (`effects_add_up`).
//!
//! For each event the index finds the laws whose event may be this one. Such a law's event is unified with it, and then the law is
//! asked for the instances of its conditions, and for what the arguments of its fluent are in them.
//!
//! Contracts cite these definitions:
//!
//! | file of `specs/` | defines |
//! |---|---|
//! | `Names` | which facts may be a state of a text, and which events may happen |
//! | `Effects` | the effects of events in a state |
//! | `Laws` | the laws of a text as they are kept, each with the number of its variables |
//! | `Given` | what a law gives for an event over a set of facts, and what all laws give for some events |
//! | `Next` | the state after events by the state before them, and which facts are the next state of a trace |
#![tactic(auto)]

mod causal_law;
mod causal_laws;
mod given;
mod giving;
mod laws;
mod settling;

pub use causal_laws::CausalLaws;
pub use laws::{effects_add_up, effects_make_the_next_state};
