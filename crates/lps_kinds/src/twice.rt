ghost use Rattle.std.specs.Prelude.{◌≡◌, IfOk, []};
ghost use Rattle.lps_model.specs.KindRefusals.{declared_twice as declared_twice_of, first_again as first_again_of, twice_by};

use crate::names::Names;
use crate::occurrences::all_declared;
use lps_model::Declaration;
use lps_terms::{Refused, Text};
use std::alloc::{AllocError, Global};

/// The refusal of the first declaration of a name that was declared before.
pub fn declared_twice(alloc: Global, text: &Text) -> Result<Option<Refused>, AllocError>
    ensures { IfOk result (λ found. found ≡ declared_twice_of text.now) }
{
    let declared = all_declared(alloc, text)?;
    first_again(alloc, declared.as_slice())
}

fn first_again(alloc: Global, declared: &[Declaration]) -> Result<Option<Refused>, AllocError>
    ensures { IfOk result (λ found. found ≡ twice_by (first_again_of [] declared.now)) }
{
    let mut before = Names::new(alloc);
    for declaration in declared {
        if before.contains(&declaration.name) {
            return Ok(Some(Refused::DeclaredTwice {
                line: declaration.line,
                name: declaration.name.copy(alloc)?,
            }));
        }
        before.insert(alloc, &declaration.name)?;
    }
    Ok(None)
}
