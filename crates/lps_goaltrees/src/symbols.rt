//! How many symbols goals have with their nodes.
ghost use Rattle.std.specs.Prelude.{◌≡◌};
ghost use Rattle.lps_sizes.specs.Sizes.{limited};
ghost use Rattle.lps_goaltrees.specs.declared.slot.Which.TheVariants.{Now};
ghost use Rattle.lps_goaltrees.specs.Pursued.{goals_size};
ghost use Rattle.lps_goaltrees.specs.Slots.{goals_of, size_now};

use crate::slot::{Slot, Which};
use lps_sizes::goal_symbols;

/// How many symbols the goals now have with their nodes. `u64::MAX` stands for that number and all above.
pub(crate) fn symbols(slots: &[Slot]) -> u64
    ensures { result ≡ limited (goals_size (goals_of Now slots.now)) }
{
    let mut count = 0u64;
    for slot in slots {
        count = count.saturating_add(symbols_now(slot));
    }
    count
}

/// The symbols of the goal now, if there is one.
fn symbols_now(slot: &Slot) -> u64
    ensures { result ≡ limited (size_now slot.now) }
{
    match slot.versions.get(Which::Now) {
        Some(goal) => goal_symbols(&goal.key, goal.nodes.as_slice()),
        None => 0,
    }
}
