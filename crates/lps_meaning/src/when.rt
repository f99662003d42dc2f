/// A time of a node: a number of a cycle, or one that is not known yet.
#[derive(Clone, Copy, Debug, PartialEq, Eq)]
pub enum When {
    Known(u64),
    /// The number of the time in its node.
    Unknown(u32),
}
