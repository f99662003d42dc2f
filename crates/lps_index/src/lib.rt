//! One index of a program: which clauses, causal laws, denials, macro clauses and rules of an accepted text may have to do
//! with an atom.
//!
//! It stands on accepted texts alone, and knows nothing of what holds, of searches or of runs. It is made once when a run
//! starts, and lent to all that asks for statements. Its theorem is that what is found by an atom is exactly the statements
//! of a kind that speak of an atom of that name whose first argument may be the same one (the contracts of
//! `Index::clauses_for`, `laws_for`, `denials_for`, `macro_clauses_for` and `rules_for`).
//!
//! Contracts cite these definitions:
//!
//! | file of `specs/` | defines |
//! |---|---|
//! | `Matching` | which two atoms may have an instance in common |
//! | `Spoken` | by which atoms a statement is found, and which statements are found by an atom |
//! | `Table` | where places of statements stand by name and by first argument |
#![tactic(auto)]

mod closed;
mod found;
mod index;
mod places;
mod table;
mod tables;

pub use found::Found;
pub use index::Index;
