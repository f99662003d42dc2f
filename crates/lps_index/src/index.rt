ghost use Rattle.std.specs.Prelude.{◌≡◌, ◌++◌, IsTrue, IfOk};
ghost use Rattle.lps_model.specs.Acceptance.{IsAccepted};
ghost use Rattle.lps_model.specs.Clauses.{clauses};
ghost use Rattle.lps_model.specs.Formed.{is_formed};
ghost use Rattle.lps_model.specs.Program.{laws};
ghost use Rattle.lps_model.specs.Rules.{denials, macro_clauses, rules};
ghost use Rattle.lps_index.specs.Spoken.{AreFound, has_clause, of_clause, of_items, of_law, of_macro_clause, of_rule};

use crate::found::Found;
use crate::tables::Tables;
use lps_model::Accepted;
use lps_terms::{Atom, Name};
use std::alloc::{AllocError, Global};
use std::marker::Model;

/// An accepted text whose statements are found by atoms. Contracts see the text.
#[derive(Drop)]
pub struct Index {
    text: Accepted,
    tables: Tables,
}

impl Model for Index {
    ghost use Rattle.lps_terms.specs.contracts.expr.Expr as expr;
    ghost use Rattle.lps_terms.specs.contracts.term.Term as term;
    ghost use Rattle.lps_terms.specs.declared.text.Text.{Text};
    ghost use Rattle.std.specs.Coded.{codes};
    ghost use Rattle.lps_index.specs.Table.{AreTables};

    ghost Value = { Text };

    ghost coded = { Prim.hlevel (codes, term.the_row.coded, expr.the_row.coded) };

    ghost view = { λ index. index.text };

    ghost invariant = { λ index. AreTables index.text.statements index.tables };
}

impl Index {
    /// The index of an accepted text. The only error is that memory runs out.
    pub fn new(alloc: Global, text: Accepted) -> Result<Index, AllocError>
        ensures { IfOk result (λ index. index ≡ text) }
    {
        let tables = Tables::of(alloc, text.text())?;
        Ok(Index { text, tables })
    }

    /// The text with its declarations and its levels.
    pub fn text(&self) -> &Accepted
        ensures { result.now ≡ self.now }
    {
        &self.text
    }

    /// What holds of all accepted texts. It does nothing.
    pub fn lawful(&self)
        ensures accepted { IsAccepted self.now }
        ensures formed { IsTrue (is_formed self.now) }
    {
        let _ = self.text.text();
    }

    /// The clauses whose head may have an instance in common with the atom: it has the same name, and where both first
    /// arguments have no variables they are equal.
    pub fn clauses_for(&self, asked: &Atom) -> Found<'_>
        ensures { AreFound of_clause (clauses self.now) asked.now (result.keyed.now ++ result.others.now) }
    {
        self.tables.clauses.found(asked)
    }

    /// Whether a clause has this name in its head.
    pub fn has_clause(&self, name: &Name) -> bool
        ensures { result ≡ has_clause self.now name.now }
    {
        self.tables.clauses.named(name).len() > 0
    }

    /// The causal laws whose event may be this one.
    pub fn laws_for(&self, event: &Atom) -> Found<'_>
        ensures { AreFound of_law (laws self.now) event.now (result.keyed.now ++ result.others.now) }
    {
        self.tables.laws.found(event)
    }

    /// The denials one of whose atoms may be this one, whether it is to happen, to be true or not to be true. A denial
    /// that asks for it by way of a clause alone is not among them.
    pub fn denials_for(&self, asked: &Atom) -> Found<'_>
        ensures { AreFound of_items (denials self.now) asked.now (result.keyed.now ++ result.others.now) }
    {
        self.tables.denials.found(asked)
    }

    /// The macro clauses whose head may have an instance in common with the call.
    pub fn macro_clauses_for(&self, call: &Atom) -> Found<'_>
        ensures { AreFound of_macro_clause (macro_clauses self.now) call.now (result.keyed.now ++ result.others.now) }
    {
        self.tables.macro_clauses.found(call)
    }

    /// The rules whose antecedent has a step, or a condition, that may be this atom.
    pub fn rules_for(&self, asked: &Atom) -> Found<'_>
        ensures { AreFound of_rule (rules self.now) asked.now (result.keyed.now ++ result.others.now) }
    {
        self.tables.rules.found(asked)
    }
}
