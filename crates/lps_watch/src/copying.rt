ghost use Rattle.std.specs.Prelude.{◌≡◌, IfOk};

use lps_residual::{Awaited, Wake};
use lps_terms::{Term, copy_term};
use std::alloc::{AllocError, Global};

/// What wakes a node, as it is.
///
/// # Errors
/// `AllocError` where memory runs out.
pub fn copy_wake(alloc: Global, wake: &Wake) -> Result<Wake, AllocError>
    ensures { IfOk result (λ copy. copy ≡ wake.now) }
{
    Ok(Wake {
        awaited: copy_awaited(alloc, &wake.awaited)?,
        due: wake.due,
    })
}

/// What is awaited, as it is.
pub(crate) fn copy_awaited(
    alloc: Global,
    awaited: &Option<Awaited>,
) -> Result<Option<Awaited>, AllocError>
    ensures { IfOk result (λ copy. copy ≡ awaited.now) }
{
    match awaited {
        Some(event) => {
            let name = event.name.copy(alloc)?;
            let first = copy_first(alloc, &event.first)?;
            Ok(Some(Awaited { name, first }))
        }
        None => Ok(None),
    }
}

fn copy_first(alloc: Global, first: &Option<Term>) -> Result<Option<Term>, AllocError>
    ensures { IfOk result (λ copy. copy ≡ first.now) }
{
    match first {
        Some(term) => Ok(Some(copy_term(alloc, term)?)),
        None => Ok(None),
    }
}
