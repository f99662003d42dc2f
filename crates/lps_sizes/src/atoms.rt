ghost use Rattle.std.specs.Prelude.{◌≡◌};
ghost use Rattle.lps_sizes.specs.Sizes.{atoms_size, limited};

use lps_terms::{Atom, atom_symbols};

/// How many symbols these atoms have together. `u64::MAX` stands for that number and all above.
pub fn atoms_symbols(atoms: &[Atom]) -> u64
    ensures { result ≡ limited (atoms_size atoms.now) }
{
    let mut count = 0u64;
    for atom in atoms {
        count = count.saturating_add(atom_symbols(atom));
    }
    count
}
