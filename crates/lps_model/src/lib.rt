//! What a text says, when it is accepted, and what happens when in a trace: definitions, and the types that go with them.
//!
//! It stands on the data of texts alone, and knows nothing of what holds, of derivations or of runs. Its calls find the first
//! declaration of a name (`Kinds`), and lend an accepted text with its declarations and levels (`Accepted`).
#![tactic(auto)]

mod accepted;
mod batch;
mod copy;
mod cycle;
mod declaration;
mod judge_error;
mod kinds;
mod levels;
mod occurrence;
mod place;
mod table;
mod trace;
mod variables;
mod verdict;

pub use accepted::Accepted;
pub use batch::Batch;
pub use cycle::{Cycle, Group, Pick};
pub use declaration::Declaration;
pub use judge_error::JudgeError;
pub use kinds::Kinds;
pub use levels::Levels;
pub use occurrence::Occurrence;
pub use place::Place;
pub use trace::Trace;
pub use variables::{has_variable, have_variables};
pub use verdict::Verdict;
