//! Whether the times of a text are in order: refusals for sequences and denials out of order, for groups of both events and
//! actions, and for macro heads with other times than their bodies.
//! It stands on the table of kinds and on the definitions of the order, and never knows of arguments, variables or levels.
//! It carries the theorem that exactly the texts without such a refusal pass, and that otherwise the least is answered
//! at its first line, as the clause of `ordered`.
#![tactic(auto)]

mod answer;
mod body;
mod denial;
mod happening;
mod sequence;
mod times;
mod walk;

pub use answer::ordered;
