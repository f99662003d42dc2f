use thiserror::Error;

/// Why bytes have no tokens. Lines count from 1.
#[derive(Clone, Copy, Debug, PartialEq, Eq, Error)]
pub enum LexRefused {
    /// No token begins with this byte, and it stands in no comment.
    #[error("text line {line}: bad byte")]
    BadByte { line: u32 },
    /// A word has more than 64 bytes.
    #[error("text line {line}: name too long")]
    NameTooLong { line: u32 },
    /// A number is past 9223372036854775808.
    #[error("text line {line}: number too large")]
    NumberTooLarge { line: u32 },
}
