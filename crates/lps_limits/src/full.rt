use crate::limit::Limit;
use lps_model::Cycle;
use std::fmt;
use thiserror::Error;

/// A limit of a run is exceeded.
#[derive(Drop, Error)]
#[error("{limit} full at cycle {cycle} with {symbols} symbols")]
pub struct Full {
    /// The first limit that is exceeded.
    pub limit: Limit,
    /// The cycle with which it is; 0 where it is before any cycle.
    pub cycle: u64,
    /// The symbols that exceed it; `u64::MAX` stands for that number and all above.
    pub symbols: u64,
    /// The cycle that was tried; at 0 nothing happens in it.
    pub tried: Cycle,
}

impl fmt::Debug for Full {
    fn fmt<W: fmt::Write>(&self, f: &mut fmt::Formatter<W>) -> fmt::Result {
        write!(f, "{self}")
    }
}
