ghost use Rattle.std.specs.Prelude.{◌≡◌, ◌<◌, ◌↔◌, ◌++◌, ℕ, IsTrue, IfOk, Contains, length};
ghost use Rattle.std.specs.List.{AllByRecursion};
ghost use Rattle.lps_model.specs.Acceptance.{IsAccepted};
ghost use Rattle.lps_model.specs.Formed.{is_formed};
ghost use Rattle.lps_model.specs.Clauses.{clauses};
ghost use Rattle.lps_solve.specs.Table.{IsPlaceFor, clause_at, clause_of, clause_vars};

use crate::clause::Clause;
use crate::clauses::Clauses;
use lps_index::{Found, Index};
use lps_model::Accepted;
use lps_terms::Atom;
use std::alloc::{AllocError, Global};
use std::marker::Model;

/// An accepted text with its index, and its clauses ready to be asked. Contracts see the text.
#[derive(Drop)]
pub struct Program {
    index: Index,
    clauses: Clauses,
}

impl Model for Program {
    ghost use Rattle.lps_terms.specs.contracts.expr.Expr as expr;
    ghost use Rattle.lps_terms.specs.contracts.term.Term as term;
    ghost use Rattle.lps_terms.specs.declared.text.Text.{Text};
    ghost use Rattle.std.specs.Coded.{codes};
    ghost use Rattle.lps_solve.specs.Table.{AreClausesOf};

    ghost Value = { Text };

    ghost coded = { Prim.hlevel (codes, term.the_row.coded, expr.the_row.coded) };

    ghost view = { λ program. program.index };

    ghost invariant = { λ program. AreClausesOf program.index program.clauses };
}

impl Program {
    /// The text with its index. The only error is that memory runs out.
    pub fn new(alloc: Global, text: Accepted) -> Result<Program, AllocError>
        ensures { IfOk result (λ program. program ≡ text) }
    {
        let clauses = Clauses::new(alloc, text.text())?;
        let index = Index::new(alloc, text)?;
        Ok(Program { index, clauses })
    }

    /// The text.
    pub fn text(&self) -> &Accepted
        ensures { result.now ≡ self.now }
    {
        self.index.text()
    }

    /// The index of the text.
    pub fn index(&self) -> &Index
        ensures { result.now ≡ self.now }
    {
        &self.index
    }

    /// What holds of all programs.
    pub fn lawful(&self)
        ensures accepted { IsAccepted self.now }
        ensures formed { IsTrue (is_formed self.now) }
    {
        self.index.lawful();
    }

    /// The places of the clauses that a goal is taken to.
    pub(crate) fn places_for(&self, goal: &Atom) -> Found<'_>
        ensures { (i : ℕ) → Contains (result.keyed.now ++ result.others.now) i ↔ IsPlaceFor (clauses self.now) goal.now i }
    {
        self.index.clauses_for(goal)
    }

    /// The clause at a place.
    pub(crate) fn clause(&self, at: usize) -> &Clause
        requires { at < length (clauses self.now) }
        ensures clause { clause_of result.now ≡ clause_at (clauses self.now) at }
        ensures variables { AllByRecursion (λ v. v < result.now.variables) (clause_vars (clause_of result.now)) }
    {
        self.clauses.clause(at)
    }
}
