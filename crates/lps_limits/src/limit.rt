ghost use Rattle.std.specs.Prelude.{◌≤◌};
ghost use Rattle.lps_limits.specs.declared.limit.Sizes.{Sizes as AllSizes};
ghost use Rattle.lps_limits.specs.Limits.{AreCounts, IsExcess};

use thiserror::Error;

/// How many symbols a state may have.
pub const MOST_IN_STATE: u64 = 4_000_000;

/// How many symbols may be kept at most, where so many are asked for.
pub const MOST_KEPT: u64 = 8_000_000;

/// How many symbols may be kept where nothing else is asked for.
pub const KEPT_BY_DEFAULT: u64 = 1_000_000;

/// How many symbols a log may have.
pub const MOST_IN_LOG: u64 = 16_000_000;

/// A limit of a run.
#[derive(Clone, Copy, Debug, PartialEq, Eq, Error)]
pub enum Limit {
    /// Of the symbols of a state.
    #[error("state")]
    State,
    /// Of the symbols that are kept from cycle to cycle.
    #[error("kept")]
    Kept,
    /// Of the symbols of all cycles so far.
    #[error("log")]
    Log,
}

/// How many symbols a run has in each of what is limited.
#[derive(Clone, Copy, Debug, PartialEq, Eq)]
pub struct Sizes {
    pub state: u64,
    pub kept: u64,
    pub log: u64,
}

/// The first limit that is exceeded, where at most so many symbols may be kept, and the symbols that exceed it.
pub fn first_exceeded(counts: &Sizes, keep: u64) -> Option<(Limit, u64)>
    requires { keep ≤ 8000000 }
    ensures { (sizes : AllSizes) → AreCounts counts.now sizes → IsExcess keep sizes result }
{
    if counts.state > MOST_IN_STATE {
        Some((Limit::State, counts.state))
    } else if counts.kept > keep {
        Some((Limit::Kept, counts.kept))
    } else if counts.log > MOST_IN_LOG {
        Some((Limit::Log, counts.log))
    } else {
        None
    }
}
