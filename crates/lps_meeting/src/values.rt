//! The values of variables by which terms are a row.
ghost use Rattle.std.specs.Prelude.{◌≡◌, ℕ, IfOk, MatchOption, map};
ghost use Rattle.lps_terms.specs.declared.term.Term.{Term as Value};
ghost use Rattle.lps_terms.specs.Put.{put};
ghost use Rattle.lps_unify.specs.Bindings.{count_of};
ghost use Rattle.lps_unify.specs.Unified.{AreWithin, IsExtended};
ghost use Rattle.lps_solve.specs.Met.{AreGround};
ghost use Rattle.lps_meeting.specs.Steps.{AreResolved, AreValuesBy, IsFresh};

use crate::moment::Moment;
use lps_solve::unify_all;
use lps_terms::Term;
use lps_unify::Bindings;
use std::alloc::{AllocError, Global};

/// A term for each variable such that the terms are the row; none where nothing makes them so. The bindings are as before on
/// every way out.
pub fn values_by(
    moment: &Moment<'_>,
    terms: &[Term],
    row: &[Term],
    bindings: &mut Bindings,
) -> Result<Option<Vec<Term>>, AllocError>
    requires fresh { IsFresh moment.now.variables bindings.now }
    requires within { AreWithin moment.now.variables terms.now }
    requires ground { AreGround row.now }
    ensures values { IfOk result (λ found. MatchOption found ((s : ℕ → Value) → map (put s) terms.now ≡ row.now → ⊥) (λ values. AreValuesBy moment.now.variables terms.now row.now values.items)) }
    ensures same { bindings.new ≡ bindings.old }
{
    let mark = bindings.mark();
    let found = bound_values(moment, terms, row, bindings);
    bindings.undo_to(&mark);
    found
}

/// The same, with the variables bound so.
fn bound_values(
    moment: &Moment<'_>,
    terms: &[Term],
    row: &[Term],
    bindings: &mut Bindings,
) -> Result<Option<Vec<Term>>, AllocError>
    requires fresh { IsFresh moment.now.variables bindings.now }
    requires within { AreWithin moment.now.variables terms.now }
    requires ground { AreGround row.now }
    ensures values { IfOk result (λ found. MatchOption found ((s : ℕ → Value) → map (put s) terms.now ≡ row.now → ⊥) (λ values. AreValuesBy moment.now.variables terms.now row.now values.items)) }
    ensures longer { IsExtended bindings.old bindings.new }
{
    if terms.len() != row.len() {
        return Ok(None);
    }
    if !unify_all(bindings, terms, row)? {
        return Ok(None);
    }
    bindings.lawful();
    Ok(Some(resolved_values(moment.alloc, moment.variables, bindings)?))
}

/// What the bindings make of each of so many variables.
#[tactic(auto, using(crate::proofs::SettingValues::none_resolved, crate::proofs::SettingValues::more_resolved))]
fn resolved_values(
    alloc: Global,
    variables: u32,
    bindings: &Bindings,
) -> Result<Vec<Term>, AllocError>
    requires { count_of bindings.now ≡ variables }
    ensures { IfOk result (λ values. AreResolved variables bindings.now values.items) }
{
    let mut values = Vec::new(alloc);
    for variable in 0..variables {
        values.push(bindings.resolve(&Term::Var(variable))?)?;
    }
    Ok(values)
}
