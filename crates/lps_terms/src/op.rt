/// An operator of integer arithmetic.
#[derive(Clone, Copy, Debug, PartialEq, Eq)]
pub enum Op {
    Add,
    Sub,
    Mul,
    /// Division that rounds toward negative infinity.
    Div,
    /// What that division leaves.
    Mod,
}
