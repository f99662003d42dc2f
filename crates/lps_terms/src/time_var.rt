/// A variable for a time, by its number in its statement.
#[derive(Clone, Copy, Debug, PartialEq, Eq)]
pub struct TimeVar(pub u32);
