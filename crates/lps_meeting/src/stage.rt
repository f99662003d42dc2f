use lps_meaning::Node;

/// What is left on the way through the steps of one time.
#[derive(Drop)]
pub struct Stage {
    /// What is left. Its variables and times have the numbers that they had before these steps.
    pub node: Node,
    /// When the last step ended at the latest: the present time once one was made in it.
    pub before: u64,
    /// Whether what was met last is an event or an action.
    pub joins: bool,
}
