use thiserror::Error;

/// Why a line of events is refused.
#[derive(Clone, Copy, Debug, PartialEq, Eq, Error)]
pub enum BatchKind {
    #[error("line too long")]
    LineTooLong,
    #[error("bad line")]
    BadLine,
    #[error("too many events")]
    TooManyEvents,
    #[error("term too large")]
    TermTooLarge,
    #[error("undeclared")]
    Undeclared,
    #[error("wrong arity")]
    WrongArity,
    /// The predicate is no event.
    #[error("not external")]
    NotExternal,
    /// The number is not that of the next cycle.
    #[error("expected {expected}, got {got}")]
    Gap { expected: u64, got: u64 },
    /// The events are not those of the cycle that was kept.
    #[error("differs from cycle {cycle}")]
    Differs { cycle: u64 },
}
