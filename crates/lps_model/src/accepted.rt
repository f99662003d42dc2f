ghost use Rattle.std.specs.Prelude.{◌≡◌, IsTrue, None, option_copied};
ghost use Rattle.lps_model.specs.Acceptance.{early_refusal, IsAccepted};
ghost use Rattle.lps_model.specs.Declarations.{arity_among, decl_among, kind_among};
ghost use Rattle.lps_model.specs.Formed.{is_formed};
ghost use Rattle.lps_model.specs.Levels.{AreLevelsOf};
ghost use Rattle.lps_model.specs.Program.{declarations};

use crate::{Kinds, Levels};
use lps_terms::{Decl, Kind, Name, Text};
use std::marker::Model;

/// An accepted text, with its declarations and the levels of its names. Contracts see the text.
#[derive(Drop)]
pub struct Accepted {
    text: Text,
    kinds: Kinds,
    levels: Levels,
}

impl Model for Accepted {
    ghost use Rattle.lps_terms.specs.declared.text.Text.{Text};
    ghost use Rattle.lps_terms.specs.contracts.expr.Expr as expr;
    ghost use Rattle.lps_terms.specs.contracts.term.Term as term;
    ghost use Rattle.std.specs.Coded.{codes};
    ghost use Rattle.lps_model.specs.Accepted.{IsAdopted};

    ghost Value = { Text };

    ghost coded = { Prim.hlevel (codes, term.the_row.coded, expr.the_row.coded) };

    ghost view = { λ accepted. accepted.text };

    ghost invariant = { λ accepted. IsAdopted accepted.text accepted.kinds accepted.levels };
}

impl Accepted {
    /// The accepted text that has these declarations and these levels. Nothing is tested or copied.
    pub fn adopt(text: Text, kinds: Kinds, levels: Levels) -> Accepted
        requires declared { kinds ≡ declarations text }
        requires not_refused { early_refusal text ≡ None }
        requires levelled { AreLevelsOf text levels }
        requires formed { IsTrue (is_formed text) }
        ensures { result ≡ text }
    {
        Accepted {
            text,
            kinds,
            levels,
        }
    }

    /// The text, which is well-formed and accepted.
    pub fn text(&self) -> &Text
        ensures same { result.now ≡ self.now }
        ensures accepted { IsAccepted self.now }
        ensures formed { IsTrue (is_formed self.now) }
    {
        &self.text
    }

    /// The first declaration of a name.
    pub fn decl(&self, name: &Name) -> Option<&Decl>
        ensures { option_copied result ≡ decl_among (declarations self.now) name.now }
    {
        self.kinds.decl(name)
    }

    /// The kind of a name, where it is declared.
    pub fn kind(&self, name: &Name) -> Option<Kind>
        ensures { result ≡ kind_among (declarations self.now) name.now }
    {
        self.kinds.kind(name)
    }

    /// How many arguments a name is declared with, where it is declared.
    pub fn arity(&self, name: &Name) -> Option<u32>
        ensures { result ≡ arity_among (declarations self.now) name.now }
    {
        self.kinds.arity(name)
    }

    /// Levels for the calls of the text, with one for each timeless, derived and macro name.
    pub fn levels(&self) -> &Levels
        ensures { AreLevelsOf self.now result.now }
    {
        &self.levels
    }
}
