ghost use Rattle.std.specs.Prelude.{◌≡◌};
ghost use Rattle.lps_model.specs.declared.judge_error.JudgeError.TheVariants.{NoMemory};

use lps_terms::Refused;
use std::alloc::AllocError;
use thiserror::Error;

/// Why a judge of texts did not pass a text.
#[derive(Debug, Drop, Error)]
pub enum JudgeError {
    /// Memory ran out. It says nothing of the text.
    #[error("no memory")]
    NoMemory,
    /// The text is refused, for this reason.
    #[error(transparent)]
    Refused(Refused),
}

impl From<AllocError> for JudgeError {
    ghost from_gives = { λ _ error. error ≡ NoMemory };

    fn from(_error: AllocError) -> JudgeError {
        JudgeError::NoMemory
    }
}
