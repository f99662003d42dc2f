ghost use Rattle.std.specs.Prelude.{◌≡◌, ◌≤◌, IfOk, OnErr, OnOk, Contains, map};
ghost use Rattle.lps_terms.specs.declared.atom.Atom.{Atom as Fluent};
ghost use Rattle.lps_terms.specs.declared.text.Text.{Text};
ghost use Rattle.lps_facts.specs.Facts.{members};
ghost use Rattle.lps_solve.specs.Met.{AreGround};
ghost use Rattle.lps_unify.specs.Bindings.{count_of};
ghost use Rattle.lps_sizes.specs.Sizes.{limited};
ghost use Rattle.lps_antecedents.specs.Slots.{held_size};
ghost use Rattle.lps_antecedents.specs.Waiting.{IsReadyWaiting, StandAfter, StandAtFirst};

use crate::advancing::advance;
use crate::buckets::{Buckets, put_all};
use crate::held::Held;
use crate::starting::started;
use crate::symbols::symbols;
use lps_facts::Facts;
use lps_meaning::GoalKey;
use lps_nodes::progress_law;
use lps_residual::wake_law;
use lps_solve::Program;
use lps_terms::Atom;
use lps_unify::Bindings;
use std::alloc::{AllocError, Global};
use std::marker::Model;

/// What waits for the antecedents of the rules of a text. Contracts see what waits now, what waited before, and all that lies in its
/// buckets.
#[derive(Drop)]
pub struct Waiting {
    buckets: Buckets,
}

impl Model for Waiting {
    ghost use Rattle.lps_terms.specs.contracts.term.Term as term;
    ghost use Rattle.lps_terms.specs.contracts.expr.Expr as expr;
    ghost use Rattle.std.specs.Coded.{codes};
    ghost use Rattle.lps_antecedents.specs.Buckets.{IsSoundOf, kept, slots_of, waited, waiting};
    ghost use Rattle.lps_antecedents.specs.Waiting.{WaitingNodes};

    ghost Value = { WaitingNodes };

    ghost coded = { Prim.hlevel (codes, term.the_row.coded, expr.the_row.coded) };

    ghost view = { λ it. record { held = waiting (slots_of it.buckets.by_wake); before = waited (slots_of it.buckets.by_wake); kept = kept (slots_of it.buckets.by_wake) } };

    ghost invariant = { λ it. IsSoundOf it.buckets };
}

impl Waiting {
    /// What waits in the initial state, and the keys of the antecedents that are true in it.
    ///
    /// The facts are the initial state. The bindings have no variables, and are as before on every way out. An error comes where memory
    /// runs out or no number is left for a variable or a rule, and for no other reason.
    pub fn start(
        alloc: Global,
        program: &Program,
        facts: &Facts,
        bindings: &mut Bindings,
    ) -> Result<(Waiting, Vec<GoalKey>), AllocError>
        requires ground { (a : Fluent) → Contains (members facts.now) a → AreGround a.args }
        requires none { count_of bindings.now ≡ 0 }
        ensures stands { IfOk result (λ started. StandAtFirst program.now (members facts.now) started.0.held started.1.items) }
        ensures ready { IfOk result (λ started. IsReadyWaiting program.now started.0) }
        ensures same { bindings.new ≡ bindings.old }
    {
        program.lawful();
        progress_law();
        wake_law();
        let gathered = started(alloc, program, facts, bindings)?;
        let (all, keys) = gathered.into_parts(alloc)?;
        let mut buckets = Buckets::new(alloc);
        put_all(alloc, program, &mut buckets, all)?;
        Ok((Waiting { buckets }, keys))
    }

    /// Carries what waits over a cycle, and gives the keys of the antecedents that come true in it. What the cycle does not touch is not
    /// looked at.
    ///
    /// What waits stands for a trace up to the time before; the facts are the state at this time, and the events are those of the cycle
    /// that ends at it. The bindings have no variables, and are as before on every way out. An error comes where memory runs out or no
    /// number is left for a variable, and for no other reason; then all waits as before, and that is what `undo` gives back too.
    pub fn advance(
        &mut self,
        alloc: Global,
        program: &Program,
        time: u64,
        facts: &Facts,
        events: &[Atom],
        bindings: &mut Bindings,
    ) -> Result<Vec<GoalKey>, AllocError>
        requires time { (1 ≤ time) × (time ≤ 1000000) }
        requires ready { IsReadyWaiting program.now self.old }
        requires ground { (a : Fluent) → Contains (members facts.now) a → AreGround a.args }
        requires events { (a : Fluent) → Contains events.now a → AreGround a.args }
        requires none { count_of bindings.now ≡ 0 }
        ensures stands { IfOk result (λ keys. StandAfter program.now time (members facts.now) events.now self.old.held self.new.held keys.items) }
        ensures ready { IsReadyWaiting program.now self.new }
        ensures before { OnOk result (self.new.before ≡ self.old.held) }
        ensures err { OnErr result (self.new.held ≡ self.old.held) }
        ensures same { bindings.new ≡ bindings.old }
    {
        self.buckets.settle();
        let advanced = advance(
            alloc,
            program,
            &mut self.buckets,
            time,
            facts,
            events,
            bindings,
        );
        if advanced.is_err() {
            self.buckets.restore();
        }
        advanced
    }

    /// Gives back what waited before the last `advance`, where nothing but that was called since. This takes no memory.
    pub fn undo(&mut self)
        ensures held { self.new.held ≡ self.old.before }
        ensures ready { (text : Text) → IsReadyWaiting text self.old → IsReadyWaiting text self.new }
    {
        self.buckets.restore();
    }

    /// How many symbols all that waits has. `u64::MAX` stands for that number and all above.
    pub fn symbols(&self) -> u64
        ensures { result ≡ limited (held_size self.now.held) }
    {
        symbols(&self.buckets.by_wake)
    }

    /// What waits, each once.
    pub fn held(&self, alloc: Global) -> Result<Vec<&Held>, AllocError>
        ensures { IfOk result (λ all. map (λ h. h.now) all.items ≡ self.now.held) }
    {
        self.buckets.waiting(alloc)
    }
}
