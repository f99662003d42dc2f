//! Whether the clauses of a text have levels, which bound recursion and negation: each call goes to no higher level, and one
//! that is negated, or neither descends nor stands behind a group, to a lower one.
//!
//! It stands on the declarations of a text and the definitions of the model, and never knows of values, bindings or states,
//! nor of the other reasons to refuse a text. Its theorem is that `levels` answers levels exactly where there are some, and
//! else the cycle of calls that shows that there are none (clause of `levels`); a text has no more than one such cycle, and
//! none where it has levels (`cycles_are_unique`, `levelled_texts_have_no_cycle`).
#![tactic(auto)]

mod calls;
mod distances;
mod edge;
mod guess;
mod inside;
mod judge;
mod laws;
mod name_set;
mod names;
mod text;
mod way;

pub use laws::{cycles_are_unique, levelled_texts_have_no_cycle};
pub use text::levels;
