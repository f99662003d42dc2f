ghost use Rattle.std.specs.Prelude.{◌≡◌};
ghost use Rattle.lps_lex.specs.declared.lex_error.LexError.TheVariants.{NoMemory};

use lps_terms::LexRefused;
use std::alloc::AllocError;
use thiserror::Error;

/// Why there is no list of tokens.
#[derive(Clone, Copy, Debug, PartialEq, Eq, Error)]
pub enum LexError {
    /// Memory ran out.
    #[error("no memory")]
    NoMemory,
    /// The bytes have a fault, and this is the first.
    #[error("{0}")]
    Refused(LexRefused),
}

impl From<AllocError> for LexError {
    ghost from_gives = { λ _ error. error ≡ NoMemory };

    fn from(_error: AllocError) -> LexError {
        LexError::NoMemory
    }
}
