//! Variables, some of them bound to terms, with a trail, so that bindings can be taken back.
//!
//! It stands on terms and their substitutions, and knows nothing of texts, facts or derivations. Its theorem is that
//! `Bindings::unify` adds a most general unifier, or answers false where there is none (clause `answer`, with the law
//! `bindings_have_a_general_solution`), and that `Bindings::undo_to` gives back the value at the mark (clause `back`).
//!
//! Contracts see bindings as the first number of variables and the list of what was added since. A term that is bound is
//! stored once, as it was given, and is never written out. `unify` walks through the two terms once. Where it looks for a
//! variable in a term, it visits each bound variable once. Where a bound variable meets a term, it goes through both until
//! it finds a variable to bind, and then again, and on each way goes once into each pair of a bound variable and a term.
//!
//! | file of `specs/` | defines |
//! |---|---|
//! | `Weights` | sums over the variables and symbols of a term; which terms are of the first so many variables |
//! | `Bindings` | what was added to bindings, how they stand then, and which substitutions solve them |
//! | `Slots` | where the binding of each variable is found |
//! | `Unified` | what unifying two terms does to bindings |
//! | `Canonical` | terms with their variables numbered by where they first occur |
#![tactic(auto)]

mod added;
mod bindings;
mod laws;
mod mark;
mod occurs;
mod renumber;
mod resolve;
mod settle;
mod slots;
mod step;
mod unify;
mod within;

pub use added::Added;
pub use bindings::Bindings;
pub use laws::{
    bindings_have_a_general_solution, resolved_terms_are_free, solutions_look_at_variables,
};
pub use mark::BindMark;
pub use renumber::canonical;
