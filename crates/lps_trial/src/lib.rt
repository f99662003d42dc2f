//! A trial of events: those of a cycle so far, made longer by some that violate no denial with them.
//!
//! It stands on the effects of events by causal laws, on denials, and on sets of facts that can be taken back, and knows nothing
//! of batches, of goals or of a run. Its theorem is that `Trial::try_events` answers the least number of a denial that the
//! events violate together with those before them, or none where they violate none (clause `judged`), and that a trial always
//! has events that violate no denial, and the state that they make of the state before (`IsTrial`), so that `Trial::update` makes
//! that the state (clause `next`).
//!
//! Since the events so far violate no denial, only what is new is asked of those that are tried: which of them they are, and which
//! fluents they touch.
//!
//! What events initiate and terminate is asked for once, when they are tried, in the state before all of them, and made on top of
//! the state after the events before them. Initiation wins over termination, also of events that came before.
//!
//! Contracts cite these definitions:
//!
//! | file of `specs/` | defines |
//! |---|---|
//! | `Trial` | what a trial is seen as, that it has the state after its events, and that these violate no denial |
#![tactic(auto)]

mod theory;
mod trial;

pub use theory::Theory;
pub use trial::{Trial, TrialMark};
