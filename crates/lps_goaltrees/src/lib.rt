//! The goals that are pursued: each with its number, its key and what is left of its plans.
//!
//! It stands on what a sequence comes to at a time and on the definitions of nodes and statuses, and never knows of antecedents, of
//! choices or of a cycle: a call knows the state and the events of its own time alone. Its theorem is that what is pursued stands for the
//! trace after every cycle: it has exactly the pending goals, each with exactly the nodes that are left of its live plans (clauses
//! `pursues` of `Goals::add`, `led_on` of `Goals::advance` and `closes` of `Goals::close`), and exactly the goals that are solved
//! or failed in a cycle are closed in it. Consequents have no macro calls here, so no goal is cut.
//!
//! In a cycle the goals of the cycle before are advanced, then the new ones are added, and then those that are no longer pending are
//! closed. Until the next changes all of this can be taken back.
//!
//! Contracts cite these definitions:
//!
//! | file of `specs/` | defines |
//! |---|---|
//! | `Pursued` | what contracts see of the goals that are pursued |
//! | `Slots` | how goals are kept |
//! | `Followed` | when these stand for a trace, and what the calls make of them |
//! | `Found` | what is found of a goal at a time |
//! | `Offers` | what a goal proposes |
//! | `Laws` | the laws |
#![tactic(auto)]

mod asked;
mod following;
mod found;
mod goal;
mod goals;
mod laws;
mod offer;
mod proposing;
mod rule;
mod slot;
mod slots;
mod symbols;
mod table;

pub use asked::Asked;
pub use goal::Goal;
pub use goals::Goals;
pub use laws::{offer_law, pursuit_law, solved_law};
