ghost use Rattle.std.specs.Prelude.{◌≡◌};

use crate::Verdict;
use lps_terms::Atom;
use sqlite_items::Items;
use std::alloc::Global;

/// Actions that are done together: sorted, each once, at least one.
#[derive(Drop)]
pub struct Group {
    pub atoms: Items<Atom>,
}

/// The group that is done for a goal in a cycle.
#[derive(Drop)]
pub struct Pick {
    pub goal: u64,
    pub group: Group,
}

/// One cycle of a run: the events of its batch in order, a verdict for each, and what was chosen.
#[derive(Drop)]
pub struct Cycle {
    pub events: Items<Atom>,
    pub verdicts: Items<Verdict>,
    pub picks: Items<Pick>,
}

impl Cycle {
    ghost use Rattle.lps_model.specs.Trace.{no_cycle};

    /// The cycle in which nothing happens, which stands for the time before the first cycle.
    pub fn none(alloc: Global) -> Cycle
        ensures { result ≡ no_cycle }
    {
        Cycle {
            events: Items::new(alloc),
            verdicts: Items::new(alloc),
            picks: Items::new(alloc),
        }
    }
}
