//! The limits of a run: how many symbols may be in its state, in what it keeps from cycle to cycle, and in its log.
//!
//! It stands on what waits for antecedents and on the goals that are pursued, as values, and never knows of how these come about or of
//! what is done where a limit is exceeded. Its theorem is that where what waits and what is pursued stand for a trace, `kept` counts what
//! is kept by rule and by goal (`size_law`), and that counts exceed the same limit first as the sizes do (`first_exceeded`).
//!
//! Contracts cite these definitions:
//!
//! | file of `specs/` | defines |
//! |---|---|
//! | `Sizes` | the sizes of a state, of what is kept and of a run |
//! | `Limits` | which limit is exceeded first, and that none was on the way |
//! | `Laws` | the laws |
#![tactic(auto)]

mod full;
mod laws;
mod limit;
mod retained;
mod state;

pub use full::Full;
pub use laws::size_law;
pub use limit::{
    KEPT_BY_DEFAULT, Limit, MOST_IN_LOG, MOST_IN_STATE, MOST_KEPT, Sizes, first_exceeded,
};
pub use retained::kept;
pub use state::state_symbols;
