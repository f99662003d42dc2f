ghost use Rattle.std.specs.Prelude.{◌≡◌, IfOk};
ghost use Rattle.lps_facts.specs.Facts.{members};
ghost use Rattle.lps_limits.specs.Sizes.{state_size};
ghost use Rattle.lps_sizes.specs.Sizes.{limited};

use lps_facts::Facts;
use lps_sizes::atoms_symbols;
use std::alloc::{AllocError, Global};

/// How many symbols a state has. `u64::MAX` stands for that number and all above.
pub fn state_symbols(alloc: Global, facts: &Facts) -> Result<u64, AllocError>
    ensures { IfOk result (λ count. count ≡ limited (state_size (members facts.now))) }
{
    let facts = facts.sorted(alloc)?;
    Ok(atoms_symbols(facts.as_slice()))
}
