/// What became of an event of a batch.
#[derive(Clone, Copy, Debug, PartialEq, Eq)]
pub enum Verdict {
    /// The event happens in its cycle.
    Admitted,
    /// The event would violate a denial; the number is that of the first such denial, from 1.
    Rejected(u32),
}
