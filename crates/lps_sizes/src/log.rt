ghost use Rattle.std.specs.Prelude.{◌≡◌, ◌+◌, sum_by};
ghost use Rattle.lps_sizes.specs.Sizes.{atoms_size, limited, pick_size};

use crate::atoms::atoms_symbols;
use lps_model::Pick;
use lps_terms::Atom;

/// How many symbols a cycle with these events and picks has in the log, where the events that were rejected count too. `u64::MAX` stands
/// for that number and all above.
pub fn cycle_symbols(events: &[Atom], picks: &[Pick]) -> u64
    ensures { result ≡ limited (1 + atoms_size events.now + sum_by pick_size picks.now) }
{
    1u64.saturating_add(atoms_symbols(events))
        .saturating_add(picks_symbols(picks))
}

fn picks_symbols(picks: &[Pick]) -> u64
    ensures { result ≡ limited (sum_by pick_size picks.now) }
{
    let mut count = 0u64;
    for pick in picks {
        count = count.saturating_add(pick_symbols(pick));
    }
    count
}

fn pick_symbols(pick: &Pick) -> u64
    ensures { result ≡ limited (pick_size pick.now) }
{
    1u64.saturating_add(atoms_symbols(pick.group.atoms.as_slice()))
}
