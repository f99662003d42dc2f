ghost use Rattle.std.specs.Prelude.{◌≡◌, ◌++◌, ◌∷◌, [], List, IfOk, map};
ghost use Rattle.lps_terms.specs.declared.atom.Atom.{Atom as Asked};
ghost use Rattle.lps_terms.specs.declared.statement.Statement.{Statement as Stated};
ghost use Rattle.lps_model.specs.Clauses.{clause_in};
ghost use Rattle.lps_model.specs.Program.{law_in};
ghost use Rattle.lps_model.specs.Rules.{denial_in, macro_clause_in, rule_in};
ghost use Rattle.lps_index.specs.Spoken.{of_clause, of_items, of_law, of_macro_clause, of_rule};
ghost use Rattle.lps_index.specs.Table.{AreTables, AreTablesOf, IsTableOf};

use crate::table::Table;
use lps_terms::{Body, Statement, Text};
use std::alloc::{AllocError, Global};

/// The statements of a text by the atoms that they are found by, a table a kind.
#[derive(Drop)]
pub(crate) struct Tables {
    pub clauses: Table,
    pub laws: Table,
    pub denials: Table,
    pub macro_clauses: Table,
    pub rules: Table,
}

impl Tables {
    /// The tables of no statements.
    fn new(alloc: Global) -> Tables
        ensures { AreTables [] result }
    {
        let clauses = Table::new(alloc);
        let laws = Table::new(alloc);
        let denials = Table::new(alloc);
        let macro_clauses = Table::new(alloc);
        let rules = Table::new(alloc);
        Tables {
            clauses,
            laws,
            denials,
            macro_clauses,
            rules,
        }
    }

    /// The tables of a text.
    pub(crate) fn of(alloc: Global, text: &Text) -> Result<Tables, AllocError>
        ensures { IfOk result (λ tables. AreTables text.now.statements tables) }
    {
        let mut tables = Tables::new(alloc);
        for statement in text.statements.as_slice() {
            let next = tables.with(alloc, statement)?;
            tables = next;
        }
        Ok(tables)
    }

    /// The tables with one statement more.
    fn with(self, alloc: Global, statement: &Statement) -> Result<Tables, AllocError>
        ensures { (statements : List Stated) → AreTables statements self → IfOk result (λ new. AreTables (statements ++ statement.now ∷ []) new) }
    {
        let body = &statement.body;
        let with_clauses = self.with_clauses(alloc, body)?;
        let with_laws = with_clauses.with_laws(alloc, body)?;
        let with_denials = with_laws.with_denials(alloc, body)?;
        let with_macro_clauses = with_denials.with_macro_clauses(alloc, body)?;
        with_macro_clauses.with_rules(alloc, body)
    }

    /// The tables with a statement more where that is a clause.
    fn with_clauses(self, alloc: Global, body: &Body) -> Result<Tables, AllocError>
        ensures { (clauses laws denials macro_clauses rules : List (List Asked)) → AreTablesOf clauses laws denials macro_clauses rules self → IfOk result (λ new. AreTablesOf (clauses ++ map of_clause (clause_in body.now)) laws denials macro_clauses rules new) }
    {
        let clauses = with_clause(alloc, self.clauses, body)?;
        Ok(Tables { clauses, ..self })
    }

    /// The same for a law.
    fn with_laws(self, alloc: Global, body: &Body) -> Result<Tables, AllocError>
        ensures { (clauses laws denials macro_clauses rules : List (List Asked)) → AreTablesOf clauses laws denials macro_clauses rules self → IfOk result (λ new. AreTablesOf clauses (laws ++ map of_law (law_in body.now)) denials macro_clauses rules new) }
    {
        let laws = with_law(alloc, self.laws, body)?;
        Ok(Tables { laws, ..self })
    }

    /// The same for a denial.
    fn with_denials(self, alloc: Global, body: &Body) -> Result<Tables, AllocError>
        ensures { (clauses laws denials macro_clauses rules : List (List Asked)) → AreTablesOf clauses laws denials macro_clauses rules self → IfOk result (λ new. AreTablesOf clauses laws (denials ++ map of_items (denial_in body.now)) macro_clauses rules new) }
    {
        let denials = with_denial(alloc, self.denials, body)?;
        Ok(Tables { denials, ..self })
    }

    /// The same for a macro clause.
    fn with_macro_clauses(self, alloc: Global, body: &Body) -> Result<Tables, AllocError>
        ensures { (clauses laws denials macro_clauses rules : List (List Asked)) → AreTablesOf clauses laws denials macro_clauses rules self → IfOk result (λ new. AreTablesOf clauses laws denials (macro_clauses ++ map of_macro_clause (macro_clause_in body.now)) rules new) }
    {
        let macro_clauses = with_macro_clause(alloc, self.macro_clauses, body)?;
        Ok(Tables {
            macro_clauses,
            ..self
        })
    }

    /// The same for a rule.
    fn with_rules(self, alloc: Global, body: &Body) -> Result<Tables, AllocError>
        ensures { (clauses laws denials macro_clauses rules : List (List Asked)) → AreTablesOf clauses laws denials macro_clauses rules self → IfOk result (λ new. AreTablesOf clauses laws denials macro_clauses (rules ++ map of_rule (rule_in body.now)) new) }
    {
        let rules = with_rule(alloc, self.rules, body)?;
        Ok(Tables { rules, ..self })
    }
}

#[tactic(auto, using(crate::proofs::Growing::nothing_spoken))]
fn with_clause(alloc: Global, table: Table, body: &Body) -> Result<Table, AllocError>
    ensures { (spoken : List (List Asked)) → IsTableOf spoken table → IfOk result (λ new. IsTableOf (spoken ++ map of_clause (clause_in body.now)) new) }
{
    match body {
        Body::Clause { head, .. } => table.with_atom(alloc, head),
        _ => Ok(table),
    }
}

#[tactic(auto, using(crate::proofs::Growing::nothing_spoken))]
fn with_law(alloc: Global, table: Table, body: &Body) -> Result<Table, AllocError>
    ensures { (spoken : List (List Asked)) → IsTableOf spoken table → IfOk result (λ new. IsTableOf (spoken ++ map of_law (law_in body.now)) new) }
{
    match body {
        Body::Law { event, .. } => table.with_atom(alloc, event),
        _ => Ok(table),
    }
}

#[tactic(auto, using(crate::proofs::Growing::nothing_spoken))]
fn with_denial(alloc: Global, table: Table, body: &Body) -> Result<Table, AllocError>
    ensures { (spoken : List (List Asked)) → IsTableOf spoken table → IfOk result (λ new. IsTableOf (spoken ++ map of_items (denial_in body.now)) new) }
{
    match body {
        Body::Denial(items) => table.with_items(alloc, items.as_slice()),
        _ => Ok(table),
    }
}

#[tactic(auto, using(crate::proofs::Growing::nothing_spoken))]
fn with_macro_clause(alloc: Global, table: Table, body: &Body) -> Result<Table, AllocError>
    ensures { (spoken : List (List Asked)) → IsTableOf spoken table → IfOk result (λ new. IsTableOf (spoken ++ map of_macro_clause (macro_clause_in body.now)) new) }
{
    match body {
        Body::MacroClause { head, .. } => table.with_atom(alloc, head),
        _ => Ok(table),
    }
}

#[tactic(auto, using(crate::proofs::Growing::nothing_spoken))]
fn with_rule(alloc: Global, table: Table, body: &Body) -> Result<Table, AllocError>
    ensures { (spoken : List (List Asked)) → IsTableOf spoken table → IfOk result (λ new. IsTableOf (spoken ++ map of_rule (rule_in body.now)) new) }
{
    match body {
        Body::Rule { antecedent, .. } => table.with_items(alloc, antecedent.as_slice()),
        _ => Ok(table),
    }
}
