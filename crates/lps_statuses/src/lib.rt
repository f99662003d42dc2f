//! Statuses of goals: laws alone.
//!
//! It stands on what rules mean, and never knows of what is left of a plan. It carries the laws that a status other than
//! pending stays in every continuation of a trace (`status_law`), and that zero counts make every rule true (`rule_law`).
#![tactic(auto)]

mod laws;

pub use laws::{rule_law, status_law};
