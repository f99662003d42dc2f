ghost use Rattle.std.specs.Prelude.{◌≡◌};
ghost use Rattle.lps_terms.specs.declared.read_refused.ReadRefused.TheVariants.{Lex};

use crate::lex_refused::LexRefused;
use thiserror::Error;

/// Why bytes are no text. Lines count from 1.
#[derive(Clone, Copy, Debug, PartialEq, Eq, Error)]
pub enum ReadRefused {
    /// There are more bytes than a text may have.
    #[error("text too long")]
    TextTooLong,
    /// The bytes have no tokens.
    #[error(transparent)]
    Lex(LexRefused),
    /// No text begins with the tokens up to some token of this line.
    #[error("text line {line}: bad syntax")]
    BadSyntax { line: u32 },
    /// A statement has more than 255 variables and times.
    #[error("text line {line}: too many variables")]
    TooManyVars { line: u32 },
    /// More than 1,024 symbols stand in one atom, one expression or one side of `=` or `\=`.
    #[error("text line {line}: term too large")]
    TermTooLarge { line: u32 },
}

impl From<LexRefused> for ReadRefused {
    ghost from_gives = { λ refused e. e ≡ Lex refused };

    fn from(refused: LexRefused) -> ReadRefused {
        ReadRefused::Lex(refused)
    }
}
