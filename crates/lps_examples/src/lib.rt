//! Worked examples: small texts with traces, on which the definitions are tried. Laws alone.
//!
//! It stands on what rules mean and on nodes, and never knows of what runs. It carries laws with a clause for each example:
//! of states and goals in traces (`example_law`), of picks and runs (`choice_law`, `offer_law`), of what is reported and kept
//! (`report_law`, `kept_law`), and of a program with facts (`derivation_law`).
#![tactic(auto)]

mod choices;
mod laws;
mod reports;

pub use choices::{choice_law, offer_law};
pub use laws::{derivation_law, example_law};
pub use reports::{kept_law, report_law};
