ghost use Rattle.std.specs.Prelude.{◌≡◌};
ghost use Rattle.lps_cycle.specs.declared.error.EngineError.TheVariants.{NoMemory};

use lps_limits::Full;
use std::alloc::AllocError;
use thiserror::Error;

/// Why a run was not begun, or a cycle not added to it.
#[derive(Debug, Drop, Error)]
pub enum EngineError {
    /// Memory ran out.
    #[error("no memory")]
    NoMemory,
    /// A limit would be exceeded.
    #[error(transparent)]
    Full(Full),
}

impl From<AllocError> for EngineError {
    ghost from_gives = { λ _ error. error ≡ NoMemory };

    fn from(_error: AllocError) -> EngineError {
        EngineError::NoMemory
    }
}
