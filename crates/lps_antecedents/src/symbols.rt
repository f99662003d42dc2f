//! How many symbols those that wait have.
ghost use Rattle.std.specs.Prelude.{◌≡◌, ◌∷◌, []};
ghost use Rattle.lps_sizes.specs.Sizes.{limited};
ghost use Rattle.lps_antecedents.specs.Buckets.{slots_of, waiting};
ghost use Rattle.lps_antecedents.specs.Slots.{held_size, waiting_in};

use crate::slot::Slot;
use lps_residual::Wake;
use lps_sizes::node_symbols;
use std::collections::BTreeMap;

/// How many symbols those that wait have. `u64::MAX` stands for that number and all above.
pub(crate) fn symbols(by_wake: &BTreeMap<Wake, Vec<Slot>>) -> u64
    ensures { result ≡ limited (held_size (waiting (slots_of by_wake.now))) }
{
    let mut count = 0u64;
    for (_, slots) in by_wake.iter() {
        count = count.saturating_add(symbols_in(slots.as_slice()));
    }
    count
}

fn symbols_in(slots: &[Slot]) -> u64
    ensures { result ≡ limited (held_size (waiting_in slots.now)) }
{
    let mut count = 0u64;
    for slot in slots {
        count = count.saturating_add(symbols_now(slot));
    }
    count
}

/// The symbols of one, if it waits.
fn symbols_now(slot: &Slot) -> u64
    ensures { result ≡ limited (held_size (waiting_in (slot.now ∷ []))) }
{
    if slot.waits {
        return node_symbols(&slot.held.node);
    }
    0
}
