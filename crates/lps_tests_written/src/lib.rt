//! Accepted texts, atoms, terms and conditions for tests, as a text writes them, and the texts of atoms.
//!
//! It stands on the reader of texts and on acceptance, and carries no theorem.
#![tactic(auto)]

mod written;

pub use written::{accepted_of, atom_of, atoms_of, conditions_of, shown, terms_of};
