//! Nodes: what is left of a sequence at a place of a walk, as far as it is known there. Definitions and laws alone.
//!
//! It stands on what rules mean, and never knows of bindings, of unification or of what is carried from cycle to cycle: the
//! most general of what is left is told by what is possible. It carries the laws that a place has one residual, that single
//! steps reach it, and that its time conditions have a solution exactly where a plan can go on (`node_law`); and the laws
//! that the nodes of a time are those that the nodes of the time before go on to (`progress_law`), and that these are what steps
//! alone lead to (`led_law`).
//!
//! | file of `specs/` | defines |
//! |---|---|
//! | `Shapes` | what is left at a place, the most general of it, and canonical numbers |
//! | `Steps` | single steps from one shape to the next |
//! | `Nodes` | residuals, the nodes of goals and antecedents, and how many symbols are kept |
//! | `Conditions`, `Integers` | the time conditions of what is left, in natural numbers and in integers |
//! | `Alone` | steps made at one time on what is left alone |
//! | `NextSteps` | whether the next step may begin now, and the group that a node proposes |
//! | `Plans` | what a sequence gives at a time, and what becomes of each node in the next cycle |
//! | `Led` | what the steps of one time lead to, told by steps alone |
//! | `Laws`, `LedLaws` | the laws |
#![tactic(auto)]

mod laws;

pub use laws::{led_law, node_law, progress_law};
