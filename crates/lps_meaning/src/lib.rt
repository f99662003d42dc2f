//! What rules mean: which fluents hold, which goals there are, what their plans and statuses are, which cycles are
//! legal, and what is reported.
//!
//! It stands on the data of texts and traces and on truth by derivation, and never knows of states that change, of
//! trails or of what is carried from cycle to cycle: each definition speaks of a whole trace. It carries the law of
//! states (`state_law`), the law that what happens in a run violates no denial (`denial_law`), and the laws that plain runs
//! and reports are unique (`plain_law`, `report_law`). Its types are those that goals are pursued with, and it copies them.
#![tactic(auto)]

mod copy;
mod goal;
mod laws;
mod node;
mod when;

pub use copy::{copy_cycle, copy_key, copy_node};
pub use goal::{Closed, Counts, GoalId, GoalKey, NewGoal};
pub use laws::{denial_law, frame_law, goal_law, plain_law, report_law, state_law, truth_law};
pub use node::{Carry, Left, LeftCon, LeftItem, Node};
pub use when::When;
