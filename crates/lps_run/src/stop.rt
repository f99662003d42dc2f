ghost use Rattle.std.specs.Prelude.{◌≡◌};
ghost use Rattle.lps_run.specs.declared.stop.Stop.TheVariants.{NoMemory};
ghost use Rattle.lps_run.specs.Stopping.{stop_by};

use lps_cycle::EngineError;
use lps_limits::Full;
use lps_reader::BatchBad;
use std::alloc::{AllocError, AllocFailed};

/// Why a run ended before its report was whole.
#[derive(Debug, Drop)]
pub enum Stop {
    NoMemory,
    /// The first line of the stream that is no batch of its cycle.
    Refused(BatchBad),
    /// The run has as many cycles as a run may have, and one more batch came.
    CycleLimit,
    /// A limit is exceeded before any cycle, or with the cycle of the next batch.
    Full(Full),
    /// More bytes were taken than a stream may have.
    StreamLimit,
    EventFault,
    PrintFault,
}

impl From<AllocError> for Stop {
    ghost from_gives = { λ _ stop. stop ≡ NoMemory };

    fn from(_: AllocError) -> Self {
        Stop::NoMemory
    }
}

impl<T: Drop> From<AllocFailed<T>> for Stop {
    ghost from_gives = { λ _ stop. stop ≡ NoMemory };

    fn from(_: AllocFailed<T>) -> Self {
        Stop::NoMemory
    }
}

impl From<EngineError> for Stop {
    ghost from_gives = { λ error stop. stop ≡ stop_by error };

    fn from(error: EngineError) -> Self {
        match error {
            EngineError::NoMemory => Stop::NoMemory,
            EngineError::Full(full) => Stop::Full(full),
        }
    }
}
