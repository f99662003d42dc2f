/// How two times compare: `<`, `=<`, `=`, `>=`, `>`.
#[derive(Clone, Copy, Debug, PartialEq, Eq)]
pub enum TimeRel {
    Less,
    AtMost,
    Equal,
    AtLeast,
    Greater,
}
