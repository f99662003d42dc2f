ghost use Rattle.std.specs.Prelude.{◌↔◌, ℕ, List, IfOk, IsTrue, Contains, length, map};
ghost use Rattle.lps_terms.specs.declared.atom.Atom.{Atom as Fact};
ghost use Rattle.lps_model.specs.Clauses.{clauses};
ghost use Rattle.lps_derivation.specs.Levels.{AreLevels};
ghost use Rattle.lps_facts.specs.Facts.{members};
ghost use Rattle.lps_solve.specs.Met.{AreGround};
ghost use Rattle.lps_precond.specs.Stages.{AreFit, AreRows, HasOne, IsFit, IsMetFrom, IsReady};

use lps_facts::Facts;
use lps_solve::{Program, instances, unify_all};
use lps_terms::{Args, Cond, Term, Values};
use lps_unify::Bindings;
use sqlite_items::Items;
use std::alloc::{AllocError, Global};

/// Conditions that are asked over one set of facts, where values are given for some variables and wanted for some.
#[derive(Drop)]
pub(crate) struct Stage {
    pub conds: Items<Cond>,
    /// The variables that have values at the start, as terms.
    pub given: Args,
    /// The variables whose values are wanted, as terms.
    pub found: Args,
    /// A number above those of all variables.
    pub variables: u32,
}

impl Stage {
    /// The rows of wanted values by which the conditions are met, where the row is that of the values that are given. An error
    /// comes where memory runs out.
    pub(crate) fn rows(
        &self,
        alloc: Global,
        program: &Program,
        facts: &Facts,
        row: &[Term],
    ) -> Result<Vec<Values>, AllocError>
        requires ready { IsReady program.now self.now }
        requires ground { (a : Fact) → Contains (members facts.now) a → AreGround a.args }
        requires row { IsFit (length self.now.given) row.now }
        ensures { IfOk result (λ rows. AreRows program.now (members facts.now) self.now row.now (map (λ v. v.0) rows.items)) }
    {
        program.lawful();
        let mut bindings = Bindings::new(alloc, self.variables)?;
        if !unify_all(&mut bindings, self.given.as_slice(), row)? {
            return Ok(Vec::new(alloc));
        }
        bindings.lawful();
        let conds = self.conds.as_slice();
        let wanted = self.found.as_slice();
        instances(
            alloc,
            program,
            facts,
            conds,
            wanted,
            u64::MAX,
            &mut bindings,
        )
    }

    /// Whether the conditions are met where the row is that of the values that are given.
    fn is_met(
        &self,
        alloc: Global,
        program: &Program,
        facts: &Facts,
        row: &[Term],
    ) -> Result<bool, AllocError>
        requires ready { IsReady program.now self.now }
        requires ground { (a : Fact) → Contains (members facts.now) a → AreGround a.args }
        requires row { IsFit (length self.now.given) row.now }
        ensures { IfOk result (λ met. (level : List ℕ → ℕ) → AreLevels (clauses program.now) level → IsTrue met ↔ IsMetFrom (clauses program.now) (members facts.now) level self.now row.now) }
    {
        let found = self.rows(alloc, program, facts, row)?;
        Ok(!found.is_empty())
    }

    /// Whether they are met for one of the rows.
    pub(crate) fn is_met_by_one(
        &self,
        alloc: Global,
        program: &Program,
        facts: &Facts,
        rows: &[Values],
    ) -> Result<bool, AllocError>
        requires ready { IsReady program.now self.now }
        requires ground { (a : Fact) → Contains (members facts.now) a → AreGround a.args }
        requires rows { AreFit (length self.now.given) (map (λ v. v.0) rows.now) }
        ensures { IfOk result (λ met. (level : List ℕ → ℕ) → AreLevels (clauses program.now) level → IsTrue met ↔ HasOne (IsMetFrom (clauses program.now) (members facts.now) level self.now) (map (λ v. v.0) rows.now)) }
    {
        for row in rows {
            if self.is_met(alloc, program, facts, row.0.as_slice())? {
                return Ok(true);
            }
        }
        Ok(false)
    }
}
