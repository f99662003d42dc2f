ghost use Rattle.std.specs.Prelude.{◌≡◌, IfOk};

use lps_model::Group;
use lps_terms::copy_atom;
use sqlite_items::Items;
use std::alloc::{AllocError, Global};

/// A group equal to this one, or `AllocError` where memory ran out.
pub fn copy_group(alloc: Global, group: &Group) -> Result<Group, AllocError>
    ensures { IfOk result (λ copy. copy ≡ group.now) }
{
    let mut atoms = Vec::new(alloc);
    for atom in group.atoms.as_slice() {
        atoms.push(copy_atom(alloc, atom)?)?;
    }
    Ok(Group {
        atoms: Items::from_vec(atoms),
    })
}
