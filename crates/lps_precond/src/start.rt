ghost use Rattle.std.specs.Prelude.{◌≡◌, IfOk};
ghost use Rattle.lps_precond.specs.Stages.{AreStarts, IsStart, single};

use crate::noting::{above_all, as_terms, shared_variables, variables_of};
use crate::stage::Stage;
use lps_terms::{Cond, copy_conds};
use sqlite_items::Items;
use std::alloc::{AllocError, Global};
use std::slice;

/// How a denial is asked from one of its conditions.
#[derive(Drop)]
pub(crate) struct Start {
    /// That condition alone.
    pub first: Stage,
    /// All that is to happen, where the variables that it shares with that condition have values.
    pub rest: Stage,
}

/// The starts from each of these conditions, of a denial in which this is to happen.
pub(crate) fn starts_of(
    alloc: Global,
    conds: &[Cond],
    happen: &[Cond],
) -> Result<Vec<Start>, AllocError>
    ensures { IfOk result (λ starts. AreStarts happen.now conds.now starts.items) }
{
    let mut starts = Vec::new(alloc);
    for cond in conds {
        starts.push(start_at(alloc, cond, happen)?)?;
    }
    Ok(starts)
}

/// The start from one of them.
fn start_at(alloc: Global, cond: &Cond, happen: &[Cond]) -> Result<Start, AllocError>
    ensures start { IfOk result (λ start. IsStart happen.now start) }
    ensures first { IfOk result (λ start. start.first.conds ≡ single cond.now) }
{
    let one = copy_conds(alloc, slice::from_ref(cond))?;
    let all = copy_conds(alloc, happen)?;
    let variables = above_all(one.as_slice(), all.as_slice(), &[])?;
    let shared = shared_variables(alloc, one.as_slice(), all.as_slice())?;
    let found = as_terms(alloc, shared.as_slice())?;
    let given = as_terms(alloc, shared.as_slice())?;
    let happened = variables_of(alloc, all.as_slice())?;
    Ok(Start {
        first: Stage {
            conds: one,
            given: Items::new(alloc),
            found,
            variables,
        },
        rest: Stage {
            conds: all,
            given,
            found: happened,
            variables,
        },
    })
}
