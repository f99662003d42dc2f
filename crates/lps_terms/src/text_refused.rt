ghost use Rattle.std.specs.Prelude.{◌≡◌};
ghost use Rattle.lps_terms.specs.declared.text_refused.TextRefused.TheVariants.{NotAccepted, Read};

use crate::read_refused::ReadRefused;
use crate::refused::Refused;
use thiserror::Error;

/// Why a text is not run.
#[derive(Debug, Drop, Error)]
pub enum TextRefused {
    #[error(transparent)]
    Read(ReadRefused),
    #[error(transparent)]
    NotAccepted(Refused),
    /// The statement is in the language, and this program does not run its form.
    #[error("text line {line}: not built")]
    NotBuilt { line: u32 },
}

impl From<ReadRefused> for TextRefused {
    ghost from_gives = { λ refused e. e ≡ Read refused };

    fn from(refused: ReadRefused) -> TextRefused {
        TextRefused::Read(refused)
    }
}

impl From<Refused> for TextRefused {
    ghost from_gives = { λ refused e. e ≡ NotAccepted refused };

    fn from(refused: Refused) -> TextRefused {
        TextRefused::NotAccepted(refused)
    }
}
