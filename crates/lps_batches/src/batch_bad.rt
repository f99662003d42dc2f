use lps_terms::BatchKind;

/// The first bad line of a stream, counted from 1 with those that are passed over, and why it is bad.
#[derive(Clone, Copy, Debug, PartialEq, Eq)]
pub struct BatchBad {
    pub line: u64,
    pub kind: BatchKind,
}
