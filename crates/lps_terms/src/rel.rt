/// How two integers compare: `<`, `=<`, `>`, `>=`.
#[derive(Clone, Copy, Debug, PartialEq, Eq)]
pub enum Rel {
    Less,
    AtMost,
    Greater,
    AtLeast,
}
