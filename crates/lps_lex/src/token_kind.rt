/// What a token is. A reserved word or a sign is told apart from others of its kind by its text.
#[derive(Clone, Copy, Debug, PartialEq, Eq)]
pub enum TokenKind {
    Name,
    Reserved,
    /// `T`, or `T` followed by digits only.
    Time,
    Variable,
    Number,
    Sign,
}
