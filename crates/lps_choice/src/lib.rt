//! Who picks which group of actions in a cycle.
//!
//! It stands on the types of picks and goals, and knows of no text, state or denial: a world tells which goals are pending, what
//! they propose and whether a group may happen. It carries the clauses that a chooser's picks are legal (`Chooser`), that the
//! plain chooser picks by passes (`Plain`), and that given picks are judged exactly (`check_picks`); where a world stands for a cycle
//! that may follow a trace, these picks are those of the cycle's definition (`choice_law`).
#![tactic(auto)]

mod check;
mod chooser;
mod copy;
mod laws;
mod next;
mod plain;
mod world;

pub use check::check_picks;
pub use chooser::Chooser;
pub use copy::copy_group;
pub use laws::choice_law;
pub use plain::Plain;
pub use world::World;
