//! How the next item of what is left of a sequence is met at a time, and what is left behind it.
//!
//! It stands on the search for instances of conditions, on bindings and on what is left as a value, and never knows of a trace: a
//! call knows the state and the events of its own time alone. Its theorem is that the ways and times that it gives are exactly those in
//! which the item is met (clauses `ways`, `values`, and that of `times_when_met`). The lemmas of `proofs/Meeting.antt` tie them to the
//! walks of a whole trace: a walk meets the item exactly so, and leaves what `met` leaves.
//!
//! Contracts cite these definitions:
//!
//! | file of `specs/` | defines |
//! |---|---|
//! | `Steps` | how an item is met: its times, its values and what is left behind it |
//! | `Stages` | stages on the way through the steps of one time, and what steps need to be made on them |
#![tactic(auto)]

mod behind;
mod moment;
mod stage;
mod times;
mod values;
mod ways;

pub use behind::met;
pub use moment::Moment;
pub use stage::Stage;
pub use times::times_when_met;
pub use values::values_by;
pub use ways::{Ways, ways_to_meet};
