/// What stands at the front of bytes that is not passed over.
#[derive(Clone, Copy, Debug, PartialEq, Eq)]
pub enum Front {
    /// A whole line of so many bytes, with its line feed behind it.
    Line(usize),
    /// A line that is too long, whether or not its line feed is there.
    TooLong,
    /// The beginning of a line, or nothing.
    Part,
}
