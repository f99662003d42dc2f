/// What is judged of tokens as a line of events. A place counts tokens from 0.
#[derive(Clone, Copy, Debug, PartialEq, Eq)]
pub enum LineVerdict {
    /// They are a line, with at most 1,000 events, none of them too large.
    Accepted,
    /// The first token at which they begin no line any more.
    Bad(usize),
    /// The first token of event 1,001.
    TooManyEvents(usize),
    /// The first token that is symbol 1,025 of an event.
    TooLarge(usize),
    /// They begin a line and are none.
    Incomplete,
}
