//! Known variables: whether each variable of a text is known where it must be.
//!
//! It stands on the declarations of a text and the definitions of the model, and never knows of values, bindings or states,
//! nor of the other reasons to refuse a text. Its theorem is that `modes` passes exactly the texts in which each item finds
//! known what it needs, and refuses any other at its first statement where one does not, with the leftmost variable that the
//! first such item misses (the clause of `modes`).
//!
//! Items are taken from the left with the variables known so far. A positive fluent, an event, and an action that was done
//! make theirs known; a call needs those of its arguments marked `+` and `*`; whatever is negated, compared or still to be
//! done needs all of its own; `=` needs one side, and `is` its right one. After an item all of its variables are known. A
//! head, and the fluent of a law, are judged last.
#![tactic(auto)]

mod known;
mod laws;
mod needs;
mod scope;
mod sequences;
mod statements;
mod text;
mod variables;

pub use laws::{learning_is_union, none_is_unknown};
pub use text::modes;
