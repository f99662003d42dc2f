ghost use Rattle.std.specs.Prelude.{◌≡◌, ◌∷◌, [], IfOk, if◌then◌else◌};

use crate::row::Row;
use lps_terms::{Args, Term};
use sqlite_items::Items;
use std::alloc::{AllocError, Global};

/// How a condition is met: where the terms are one of the rows.
#[derive(Drop)]
pub(crate) struct Ways {
    pub terms: Args,
    pub rows: Items<Row>,
}

impl Ways {
    /// The condition is not met.
    pub(crate) fn never(alloc: Global) -> Ways
        ensures terms { result.terms ≡ [] }
        ensures rows { result.rows ≡ [] }
    {
        Ways {
            terms: Items::new(alloc),
            rows: Items::new(alloc),
        }
    }

    /// The condition is met whatever its variables are, or else never.
    pub(crate) fn when(alloc: Global, met: bool) -> Result<Ways, AllocError>
        ensures terms { IfOk result (λ ways. ways.terms ≡ []) }
        ensures rows { IfOk result (λ ways. ways.rows ≡ (if met then ([] ∷ []) else [])) }
    {
        let mut rows = Items::new(alloc);
        if met {
            rows.push(Row::new(Items::new(alloc)))?;
        }
        Ok(Ways {
            terms: Items::new(alloc),
            rows,
        })
    }

    /// The condition is met where the term is the value.
    pub(crate) fn one(alloc: Global, term: Term, value: Term) -> Result<Ways, AllocError>
        ensures terms { IfOk result (λ ways. ways.terms ≡ term ∷ []) }
        ensures rows { IfOk result (λ ways. ways.rows ≡ (value ∷ []) ∷ []) }
    {
        let mut values = Items::new(alloc);
        values.push(value)?;
        let mut rows = Items::new(alloc);
        rows.push(Row::new(values))?;
        let mut terms = Items::new(alloc);
        terms.push(term)?;
        Ok(Ways { terms, rows })
    }
}
