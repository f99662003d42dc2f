ghost use Rattle.std.specs.Prelude.{◌≡◌};
ghost use Rattle.lps_meaning.specs.Reports.{is_pending};
ghost use Rattle.lps_goaltrees.specs.Pursued.{closed_as};

use lps_meaning::{Closed, GoalId, GoalKey, Node};
use lps_residual::Wake;
use sqlite_items::Items;

/// A goal that is pursued.
#[derive(Drop)]
pub struct Goal {
    pub goal: GoalId,
    pub key: GoalKey,
    /// What is left of its live plans, each once.
    pub nodes: Items<Node>,
    /// What wakes each of these nodes, in their order.
    pub wakes: Items<Wake>,
    /// Whether an alternative of it is true.
    pub solved: bool,
}

impl Goal {
    /// How the goal is closed, or nothing while it is pending.
    pub fn closed(&self) -> Option<Closed>
        ensures { result ≡ closed_as self.now }
    {
        if self.solved {
            Some(Closed::Solved)
        } else if self.nodes.is_empty() {
            Some(Closed::Failed)
        } else {
            None
        }
    }

    pub(crate) fn is_pending(&self) -> bool
        ensures { result ≡ is_pending (closed_as self.now) }
    {
        self.closed().is_none()
    }
}
