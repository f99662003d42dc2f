//! Whether a text is accepted: it is judged for names and kinds, for the order of times, for known variables and for levels,
//! in this order.
//!
//! It stands on the four judges and never knows how each of them goes about it, nor of how a text was read or is run. Its
//! theorem is that `accept` gives exactly the texts for which no refusal stands and whose calls have levels, and answers for
//! any other the one refusal that the text is refused for (clause of `accept`); that a text is not both is
//! `accepted_texts_are_not_refused`, and that it is refused for one thing alone `refusals_are_unique`.
#![tactic(auto)]

mod judge;
mod laws;

pub use judge::accept;
pub use laws::{accepted_texts_are_not_refused, refusals_are_unique};
