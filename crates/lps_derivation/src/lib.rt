//! Derivations: which ground atoms are true by the clauses of a text, over some facts and a truth of built-ins.
//!
//! It stands on the data of texts, and never knows of traces, searches, bindings or states that change. It carries the law
//! that truth meets one equation (`truth_law`), and the laws that truth does not depend on which levels are taken
//! (`level_law`) nor on facts that clauses do not reach (`reach_law`).
#![tactic(auto)]

mod laws;

pub use laws::{level_law, reach_law, truth_law};
