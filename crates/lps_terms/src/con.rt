use crate::time_rel::TimeRel;
use crate::time_var::TimeVar;

/// A constraint on two times: `left rel right + plus`, in cycles.
#[derive(Clone, Copy, Debug, PartialEq, Eq)]
pub struct Con {
    pub left: TimeVar,
    pub rel: TimeRel,
    pub right: TimeVar,
    /// From -1,000,000 to 1,000,000.
    pub plus: i64,
}
