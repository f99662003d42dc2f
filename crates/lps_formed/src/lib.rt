//! Texts that are read are formed: what a rule of the language asks of names, numbers, variables, times and modes holds of
//! each text that the reader gives; and the events of each line that is read as a batch are ground.
//! It stands on the readers of texts and of lines and on what their answers are made of: tokens, their numbers, and the
//! meaning of the grammar's trees.
//! It carries the laws `read_texts_are_formed` and `read_events_are_ground`.
#![tactic(auto)]

mod laws;

pub use laws::{read_events_are_ground, read_texts_are_formed};
