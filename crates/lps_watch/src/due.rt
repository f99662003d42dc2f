use lps_residual::Awaited;

/// What wakes a node, in the order of the times at which it is due.
#[derive(PartialEq, Eq, PartialOrd, Ord, Drop)]
pub(crate) struct Due {
    pub time: u64,
    pub awaited: Option<Awaited>,
}
