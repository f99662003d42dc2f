/// How a call may use an argument.
#[derive(Clone, Copy, Debug, PartialEq, Eq)]
pub enum Mode {
    /// `+`: it is known at the call.
    Plus,
    /// `-`: the call finds it.
    Minus,
    /// `*`: it is known at the call, and recursion goes down along it.
    Star,
}
