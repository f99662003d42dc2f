//! Denials: whether some events may happen, by the state before and the state after.
//!
//! It stands on the search for answers, on the index of a text, on sets of facts that can be taken back, and on the meaning of
//! denials, and knows nothing of how effects are found, of goals or of a run. Its theorem is that `least_violated` answers the
//! least number of a denial that the events violate, or none where they violate none (clause `judged`).
//!
//! A denial is cut into what is to happen, the conditions before the second of its times begins, and those from there on. What is
//! to happen is asked for over the events alone, which are a set of their own; each answer gives values to the variables there, and
//! with these the conditions before the cut are asked for in the state before, and then the rest in the state after.
//!
//! Events are tried some at a time, and those before the new ones violate no denial. So a denial is asked only where the index finds
//! it by a new event, and then from that event on; or from a fluent on that the new events touched and that is to be true or not to
//! be true in the state after. Only where a derived predicate is asked for there, which may hang on any fluent, it is asked wholly.
//! The denials are asked in any order, and the least number so far is kept.
//!
//! Contracts cite these definitions:
//!
//! | file of `specs/` | defines |
//! |---|---|
//! | `Cut` | where a denial is cut, its parts as conditions, and the fluents that it asks for after the cut |
//! | `Stages` | how the parts are asked one after the other, the rows of values that go from one to the next, and what is asked of new events |
//! | `Judged` | what is answered, and how the least number is found place by place |
#![tactic(auto)]

mod cutting;
mod denial;
mod denials;
mod noting;
mod stage;
mod start;
mod step;

pub use denials::Denials;
pub use step::Step;
