/// What is judged of tokens as a text. A place counts tokens from 0.
#[derive(Clone, Copy, Debug, PartialEq, Eq)]
pub enum TextVerdict {
    /// They are a text, and no part of it is too large.
    Accepted,
    /// The first token at which they begin no text any more.
    Bad(usize),
    /// The first token that is symbol 1,025 of an atom, a side or an expression.
    TooLarge(usize),
    /// They begin a text and are none.
    Incomplete,
}
