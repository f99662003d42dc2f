ghost use Rattle.std.specs.Prelude.{◌≡◌};
ghost use Rattle.lps_reader.specs.declared.read_error.ReadError.TheVariants.{NoMemory};

use lps_terms::ReadRefused;
use std::alloc::AllocError;
use thiserror::Error;

/// Why bytes were not read as a text.
#[derive(Clone, Copy, Debug, PartialEq, Eq, Error)]
pub enum ReadError {
    /// Memory ran out.
    #[error("no memory")]
    NoMemory,
    /// The bytes are no text within its limits, and this is the first reason.
    #[error(transparent)]
    Refused(ReadRefused),
}

impl From<AllocError> for ReadError {
    ghost from_gives = { λ _ error. error ≡ NoMemory };

    fn from(_error: AllocError) -> ReadError {
        ReadError::NoMemory
    }
}
