//! The instances of conditions that are true by the clauses of a text over a set of facts.
//!
//! It stands on the index of a text, on facts, on bindings that can be taken back, on the values of expressions and on the
//! definition of derivations, and knows nothing of events, of time or of a run. Its theorem is that `instances` gives
//! exactly what the wanted terms are in the instances that have derivations (clause `instances`), each once and in order
//! (clause `sorted`), and that the bindings are as they were on every way out (clause `same`). `answers` is the case where
//! the variables that the conditions have left are wanted.
//!
//! The search goes from a goal to the clauses whose heads may match it, binds in place, and takes each binding back. A negated
//! literal is met where the search for its atom finds nothing. It is never given up. What has to be known at a condition
//! has a value when the search comes to it, since the text is accepted and the conditions that are asked for are
//! well-moded (`Moded`); and it ends, since each goal is higher than the goals that its clauses call (`Heights`). So no
//! number limits how deep it goes.
//!
//! Contracts cite these definitions:
//!
//! | file of `specs/` | defines |
//! |---|---|
//! | `Answers` | the instances of conditions for wanted terms, the answers to conditions, and what the clauses and facts have to be |
//! | `Moded` | which conditions can be asked for under bindings, and what is known along a search |
//! | `Heights` | how far down a search may go |
//! | `Met` | conditions that are ground, small and true, and the ways to meet a condition |
//! | `Found` | what a search finds, and what its steps gain |
//! | `Placed` | the variables of a clause beside those of bindings |
//! | `Table` | the clauses as a search has them, and which of them a goal is taken to |
#![tactic(auto)]

mod answer;
mod built;
mod clause;
mod clauses;
mod found;
mod ground;
mod instance;
mod laws;
mod lists;
mod place;
mod place_cond;
mod program;
mod row;
mod search;
mod size;
mod variables;
mod ways;

pub use answer::answers;
pub use ground::are_ground;
pub use instance::instances;
pub use laws::accepted_texts_are_sound;
pub use lists::unify_all;
pub use program::Program;
pub use variables::{above_conds, note_cond};
