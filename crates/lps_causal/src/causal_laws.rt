ghost use Rattle.std.specs.Prelude.{◌≡◌, ◌≤◌, ◌<◌, ◌++◌, ◌∷◌, [], ℕ, List, IfOk, OnOk, length, Contains};
ghost use Rattle.lps_terms.specs.declared.atom.Atom.{Atom as Fluent};
ghost use Rattle.lps_terms.specs.Symbols.{atom_symbols_of};
ghost use Rattle.lps_model.specs.Program.{law_in, laws};
ghost use Rattle.lps_model.specs.Clauses.{clauses};
ghost use Rattle.lps_derivation.specs.Levels.{AreLevels};
ghost use Rattle.lps_facts.specs.Facts.{members};
ghost use Rattle.lps_solve.specs.Met.{AreGround};
ghost use Rattle.lps_causal.specs.Effects.{AreEffects};
ghost use Rattle.lps_causal.specs.Given.{AddsBy, AreGiven, ByOne, GivesAs};
ghost use Rattle.lps_causal.specs.Laws.{IsCounted, law_at, law_of};
ghost use Rattle.lps_causal.specs.Names.{AreEvents, AreFluents};

use crate::causal_law::{CausalLaw, copy_law};
use crate::given::Given;
use crate::giving::add_by_law;
use crate::settling::settled;
use lps_facts::Facts;
use lps_solve::Program;
use lps_terms::{Atom, Body, Cond, Effects, Text, atom_symbols};
use std::alloc::{AllocError, Global};
use std::marker::Model;

/// How many symbols an atom of an instance may have.
const MOST_SYMBOLS: u64 = 1024;

/// The causal laws of a text. Contracts see the list of the laws, in text order.
#[derive(Drop)]
pub struct CausalLaws {
    laws: Vec<CausalLaw>,
}

impl Model for CausalLaws {
    ghost use Rattle.lps_terms.specs.contracts.expr.Expr as expr;
    ghost use Rattle.lps_terms.specs.contracts.term.Term as term;
    ghost use Rattle.lps_model.specs.Program.{Law};
    ghost use Rattle.std.specs.Coded.{codes};
    ghost use Rattle.std.specs.List.{AllByRecursion};
    ghost use Rattle.std.specs.Prelude.{List, map};
    ghost use Rattle.lps_causal.specs.Laws.{IsCounted, law_of};

    ghost Value = { List Law };

    ghost coded = { Prim.hlevel (codes, term.the_row.coded, expr.the_row.coded) };

    ghost view = { λ it. map law_of it.laws.items };

    ghost invariant = { λ it. AllByRecursion IsCounted it.laws.items };
}

impl CausalLaws {
    /// The causal laws of a text. An error comes where memory runs out, or where no number is left for a variable.
    pub fn new(alloc: Global, text: &Text) -> Result<CausalLaws, AllocError>
        ensures { IfOk result (λ it. it ≡ laws text.now) }
    {
        let mut it = CausalLaws {
            laws: Vec::new(alloc),
        };
        for statement in text.statements.as_slice() {
            it = it.with_body(alloc, &statement.body)?;
        }
        Ok(it)
    }

    /// The laws with that of a statement, where it is one.
    fn with_body(self, alloc: Global, body: &Body) -> Result<CausalLaws, AllocError>
        ensures { IfOk result (λ it. it ≡ self ++ law_in body.now) }
    {
        match body {
            Body::Law {
                initiates,
                event,
                fluent,
                conds,
            } => self.with_law(alloc, *initiates, event, fluent, conds.as_slice()),
            _ => Ok(self),
        }
    }

    fn with_law(
        self,
        alloc: Global,
        initiates: bool,
        event: &Atom,
        fluent: &Atom,
        conds: &[Cond],
    ) -> Result<CausalLaws, AllocError>
        ensures { IfOk result (λ it. it ≡ self ++ record { initiates = initiates; event = event.now; fluent = fluent.now; conds = conds.now } ∷ []) }
    {
        let CausalLaws { mut laws } = self;
        let law = copy_law(alloc, initiates, event, fluent, conds)?;
        laws.push(law)?;
        Ok(CausalLaws { laws })
    }

    /// The law at a place.
    fn law(&self, at: usize) -> &CausalLaw
        requires { at < length self.now }
        ensures law { law_of result.now ≡ law_at self.now at }
        ensures counted { IsCounted result.now }
    {
        &self.laws[at]
    }

    /// The effects of events by these laws, which are those of the program: exactly the fluents that are initiated, and
    /// those that are terminated and not initiated, each once and in order. The conditions are read in the state that the
    /// facts are, with none of the effects.
    ///
    /// Each fact is a ground atom of a fluent of the program's text, and each event one of an event or an action. An error
    /// comes where memory runs out.
    pub fn effects(
        &self,
        alloc: Global,
        program: &Program,
        facts: &Facts,
        events: &[Atom],
    ) -> Result<Effects, AllocError>
        requires laws { self.now ≡ laws program.now }
        requires state { AreFluents program.now (members facts.now) }
        requires events { AreEvents program.now events.now }
        ensures effects { IfOk result (λ effects. (level : List ℕ → ℕ) → AreLevels (clauses program.now) level → AreEffects program.now level (members facts.now) events.now effects) }
        ensures fluents { IfOk result (λ effects. AreFluents program.now effects.initiated × AreFluents program.now effects.terminated) }
    {
        program.lawful();
        let given = self.given(alloc, program, facts, events)?;
        settled(given)
    }

    /// The fluents that the laws give for events.
    fn given(
        &self,
        alloc: Global,
        program: &Program,
        facts: &Facts,
        events: &[Atom],
    ) -> Result<Given, AllocError>
        requires laws { self.now ≡ laws program.now }
        requires state { AreFluents program.now (members facts.now) }
        requires events { AreEvents program.now events.now }
        ensures { IfOk result (λ given. AreGiven (clauses program.now) given (λ level initiates. ByOne events.now (λ event. ByOne (laws program.now) (GivesAs (clauses program.now) (members facts.now) level event initiates)))) }
    {
        let mut given = Given::new(alloc);
        for event in events {
            self.add_by_event(alloc, program, facts, event, &mut given)?;
        }
        Ok(given)
    }

    /// Adds the fluents that the laws give for an event.
    fn add_by_event(
        &self,
        alloc: Global,
        program: &Program,
        facts: &Facts,
        event: &Atom,
        given: &mut Given,
    ) -> Result<(), AllocError>
        requires laws { self.now ≡ laws program.now }
        requires state { (a : Fluent) → Contains (members facts.now) a → AreGround a.args }
        requires event { AreGround event.now.args }
        ensures { OnOk result (AddsBy (clauses program.now) given.old given.new (λ level initiates. ByOne (laws program.now) (GivesAs (clauses program.now) (members facts.now) level event.now initiates))) }
    {
        if atom_symbols(event) > MOST_SYMBOLS {
            return Ok(());
        }
        let found = program.index().laws_for(event);
        self.add_by_laws(alloc, program, facts, found.keyed, event, given)?;
        self.add_by_laws(alloc, program, facts, found.others, event, given)
    }

    /// Adds the fluents that the laws at some places give for an event of their name.
    fn add_by_laws(
        &self,
        alloc: Global,
        program: &Program,
        facts: &Facts,
        places: &[usize],
        event: &Atom,
        given: &mut Given,
    ) -> Result<(), AllocError>
        requires laws { self.now ≡ laws program.now }
        requires places { (i : ℕ) → Contains places.now i → (i < length (laws program.now)) × ((law_at (laws program.now) i).event.name ≡ event.now.name) }
        requires state { (a : Fluent) → Contains (members facts.now) a → AreGround a.args }
        requires event { AreGround event.now.args }
        requires small { atom_symbols_of event.now ≤ 1024 }
        ensures { OnOk result (AddsBy (clauses program.now) given.old given.new (λ level initiates. ByOne places.now (λ i. GivesAs (clauses program.now) (members facts.now) level event.now initiates (law_at (laws program.now) i)))) }
    {
        for place in places {
            let law = self.law(*place);
            add_by_law(alloc, program, facts, law, event, given)?;
        }
        Ok(())
    }
}
