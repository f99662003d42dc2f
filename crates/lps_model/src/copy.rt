ghost use Rattle.std.specs.Prelude.{◌≡◌, IfOk};

use lps_terms::Decl;
use sqlite_items::Items;
use std::alloc::{AllocError, Global};

/// A declaration equal to this one.
pub fn copy_decl(alloc: Global, decl: &Decl) -> Result<Decl, AllocError>
    ensures { IfOk result (λ copy. copy ≡ decl.now) }
{
    let name = decl.name.copy(alloc)?;
    let modes = Items::from_slice(alloc, decl.modes.as_slice())?;
    Ok(Decl {
        kind: decl.kind,
        name,
        arity: decl.arity,
        modes,
    })
}
