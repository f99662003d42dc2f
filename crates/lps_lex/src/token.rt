ghost use Rattle.std.specs.Prelude.{◌≡◌, ◌≤◌, length, slice_range};

use crate::token_kind::TokenKind;

/// A token of some bytes: it spans them from `start` to before `end`, and stands in this line, counted from 1.
#[derive(Clone, Copy, Debug, PartialEq, Eq)]
pub struct Token {
    pub kind: TokenKind,
    pub start: usize,
    pub end: usize,
    pub line: u32,
}

impl Token {
    /// The token's text, in the bytes that it is a token of.
    pub fn text<'a>(&self, bytes: &'a [u8]) -> &'a [u8]
        requires ordered { self.now.start ≤ self.now.end }
        requires within { self.now.end ≤ length bytes.now }
        ensures { result.now ≡ slice_range bytes.now self.now.start self.now.end }
    {
        &bytes[self.start..self.end]
    }
}
