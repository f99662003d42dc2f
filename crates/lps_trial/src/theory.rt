ghost use Rattle.std.specs.Prelude.{◌≡◌, ◌↔◌, ℕ, List, Contains, IfOk, IsTrue, None};
ghost use Rattle.lps_terms.specs.declared.atom.Atom.{Atom as Fact};
ghost use Rattle.lps_model.specs.Acceptance.{IsAccepted};
ghost use Rattle.lps_model.specs.Clauses.{clauses};
ghost use Rattle.lps_model.specs.Formed.{is_formed};
ghost use Rattle.lps_derivation.specs.Levels.{AreLevels};
ghost use Rattle.lps_facts.specs.Facts.{members};
ghost use Rattle.lps_causal.specs.Effects.{AreEffects};
ghost use Rattle.lps_causal.specs.Names.{AreEvents, AreFluents};
ghost use Rattle.lps_precond.specs.Judged.{IsJudged};
ghost use Rattle.lps_precond.specs.Stages.{AreNews, ViolateNone};
ghost use Rattle.lps_causal.specs.Next.{IsUpdate};
ghost use Rattle.lps_trial.specs.Trial.{InState};

use lps_causal::CausalLaws;
use lps_facts::Facts;
use lps_model::Accepted;
use lps_precond::{Denials, Step};
use lps_solve::Program;
use lps_terms::{Atom, Effects};
use std::alloc::{AllocError, Global};
use std::marker::Model;

/// What a text says that is the same in all cycles: its clauses, causal laws and denials. Contracts see the text.
#[derive(Drop)]
pub struct Theory {
    program: Program,
    laws: CausalLaws,
    denials: Denials,
}

impl Model for Theory {
    ghost use Rattle.lps_terms.specs.declared.text.Text.{Text};
    ghost use Rattle.lps_terms.specs.contracts.term.Term as term;
    ghost use Rattle.lps_terms.specs.contracts.expr.Expr as expr;
    ghost use Rattle.std.specs.Coded.{codes};
    ghost use Rattle.std.specs.Prelude.{◌≡◌};

    ghost Value = { Text };

    ghost coded = { Prim.hlevel (codes, term.the_row.coded, expr.the_row.coded) };

    ghost use Rattle.lps_model.specs.Program.{laws as laws_of};
    ghost use Rattle.lps_precond.specs.Cut.{cuts};

    ghost view = { λ it. it.program };

    ghost invariant = { λ it. (it.laws ≡ laws_of it.program) × (it.denials ≡ cuts it.program) };
}

impl Theory {
    /// What this text says. An error comes where memory runs out, or where a number of a denial or a variable has no 32 bits.
    pub fn new(alloc: Global, text: Accepted) -> Result<Theory, AllocError>
        ensures { IfOk result (λ theory. theory ≡ text) }
    {
        let laws = CausalLaws::new(alloc, text.text())?;
        let denials = Denials::new(alloc, &text)?;
        let program = Program::new(alloc, text)?;
        Ok(Theory {
            program,
            laws,
            denials,
        })
    }

    /// The text.
    pub fn text(&self) -> &Accepted
        ensures { result.now ≡ self.now }
    {
        self.program.text()
    }

    /// The text, to be searched.
    pub fn program(&self) -> &Program
        ensures { result.now ≡ self.now }
    {
        &self.program
    }

    /// What holds of the text. It does nothing.
    pub(crate) fn lawful(&self)
        ensures accepted { IsAccepted self.now }
        ensures formed { IsTrue (is_formed self.now) }
    {
        self.program.lawful();
    }

    /// What the events initiate and terminate in the state that the facts are.
    pub(crate) fn effects(
        &self,
        alloc: Global,
        facts: &Facts,
        events: &[Atom],
    ) -> Result<Effects, AllocError>
        requires state { AreFluents self.now (members facts.now) }
        requires events { AreEvents self.now events.now }
        ensures effects { IfOk result (λ effects. (level : List ℕ → ℕ) → AreLevels (clauses self.now) level → AreEffects self.now level (members facts.now) events.now effects) }
        ensures fluents { IfOk result (λ effects. AreFluents self.now effects.initiated × AreFluents self.now effects.terminated) }
    {
        self.laws.effects(alloc, &self.program, facts, events)
    }

    /// The least number of a denial that the events of the step violate, or none where they violate none. The set of the step has
    /// exactly its events, and those that are not new violate no denial.
    pub(crate) fn least_violated(
        &self,
        alloc: Global,
        step: &Step<'_>,
    ) -> Result<Option<u32>, AllocError>
        requires state { AreFluents self.now (members step.now.before.now) }
        requires events { AreEvents self.now step.now.events.now }
        requires happened { (a : Fact) → Contains (members step.now.happened.now) a ↔ Contains step.now.events.now a }
        requires next { IsUpdate self.now (members step.now.before.now) step.now.events.now (members step.now.after.now) }
        requires news { AreNews self.now step.now.events.now step.now.new.now (members step.now.happened.now) (members step.now.before.now) (members step.now.after.now) step.now.touched.now }
        ensures judged { IfOk result (λ found. InState self.now (members step.now.before.now) (λ level trace. IsJudged self.now level trace step.now.events.now found)) }
        ensures allowed { IfOk result (λ found. found ≡ None → ViolateNone self.now (members step.now.happened.now) (members step.now.before.now) (members step.now.after.now)) }
    {
        self.denials.least_violated(alloc, &self.program, step)
    }
}
