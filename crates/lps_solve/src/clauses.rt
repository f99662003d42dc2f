ghost use Rattle.std.specs.Prelude.{◌≡◌, ◌<◌, ◌++◌, ◌∷◌, [], IfOk, length};
ghost use Rattle.std.specs.List.{AllByRecursion};
ghost use Rattle.lps_terms.specs.declared.cond.Cond.{Cond as Condition};
ghost use Rattle.lps_model.specs.Clauses.{clause_in, clauses};
ghost use Rattle.lps_solve.specs.Table.{clause_at, clause_of, clause_vars};

use crate::clause::Clause;
use crate::variables::{above_conds, above_terms};
use lps_terms::{Atom, Body, Cond, Text, copy_atom, copy_conds};
use std::alloc::{AllocError, Global};
use std::marker::Model;

/// The clauses of a text, each with a number above those of its variables. Contracts see the list of the clauses, in text order.
#[derive(Drop)]
pub(crate) struct Clauses {
    clauses: Vec<Clause>,
}

impl Model for Clauses {
    ghost use Rattle.lps_terms.specs.contracts.expr.Expr as expr;
    ghost use Rattle.lps_terms.specs.contracts.term.Term as term;
    ghost use Rattle.lps_model.specs.Clauses.{Clause};
    ghost use Rattle.std.specs.Coded.{codes};
    ghost use Rattle.std.specs.Prelude.{List, map};
    ghost use Rattle.lps_solve.specs.Table.{AreCounted, clause_of};

    ghost Value = { List Clause };

    ghost coded = { Prim.hlevel (codes, term.the_row.coded, expr.the_row.coded) };

    ghost view = { λ table. map clause_of table.clauses.items };

    ghost invariant = { λ table. AreCounted table.clauses.items };
}

impl Clauses {
    /// The clauses of a text.
    pub(crate) fn new(alloc: Global, text: &Text) -> Result<Clauses, AllocError>
        ensures { IfOk result (λ found. found ≡ clauses text.now) }
    {
        let mut found = Clauses {
            clauses: Vec::new(alloc),
        };
        for statement in text.statements.as_slice() {
            found = found.with_body(alloc, &statement.body)?;
        }
        Ok(found)
    }

    /// The clauses with that of a statement, where it is one.
    fn with_body(self, alloc: Global, body: &Body) -> Result<Clauses, AllocError>
        ensures { IfOk result (λ found. found ≡ self ++ clause_in body.now) }
    {
        match body {
            Body::Clause { head, conds } => self.with_clause(alloc, head, conds.as_slice()),
            _ => Ok(self),
        }
    }

    fn with_clause(self, alloc: Global, head: &Atom, conds: &[Cond]) -> Result<Clauses, AllocError>
        ensures { IfOk result (λ found. found ≡ self ++ record { head = head.now; conds = conds.now } ∷ []) }
    {
        let Clauses { mut clauses } = self;
        let variables = above_terms(head.args.as_slice()).max(above_conds(conds));
        let head = copy_atom(alloc, head)?;
        let conds = copy_conds(alloc, conds)?;
        clauses.push(Clause {
            head,
            conds,
            variables,
        })?;
        Ok(Clauses { clauses })
    }

    /// The clause at a place.
    pub(crate) fn clause(&self, at: usize) -> &Clause
        requires { at < length self.now }
        ensures clause { clause_of result.now ≡ clause_at self.now at }
        ensures variables { AllByRecursion (λ v. v < result.now.variables) (clause_vars (clause_of result.now)) }
    {
        &self.clauses[at]
    }
}
