//! How many symbols things have: atoms, nodes, goals with their nodes, and cycles.
//!
//! It stands on the definitions of nodes and of cycles, and never knows of what is carried from cycle to cycle, of states or of limits.
//! Its theorem is that each count is the size of what is counted (`node_size`, `goal_size`, `cycle_size`), up to the greatest number that
//! a count can have, and that number past it.
//!
//! Contracts cite these definitions:
//!
//! | file of `specs/` | defines |
//! |---|---|
//! | `Sizes` | the sizes of atoms, of cycles and of logs, and how a size is counted |
#![tactic(auto)]

mod atoms;
mod goal;
mod laws;
mod log;
mod node;

pub use atoms::atoms_symbols;
pub use goal::{goal_symbols, nodes_symbols};
pub use laws::count_law;
pub use log::cycle_symbols;
pub use node::node_symbols;
