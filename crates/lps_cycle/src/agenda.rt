//! What waits for antecedents and which goals are pursued, carried together from cycle to cycle.
ghost use Rattle.std.specs.Prelude.{◌≡◌, ◌≤◌, List, ℕ, true, false, IfOk, OnErr, OnOk, Contains};
ghost use Rattle.lps_terms.specs.declared.atom.Atom.{Atom as Fluent};
ghost use Rattle.lps_terms.specs.declared.text.Text.{Text};
ghost use Rattle.lps_model.specs.Clauses.{clauses};
ghost use Rattle.lps_model.specs.declared.trace.Trace.{Trace};
ghost use Rattle.lps_derivation.specs.Levels.{AreLevels};
ghost use Rattle.lps_antecedents.specs.Waiting.{IsReadyWaiting};
ghost use Rattle.lps_facts.specs.Facts.{members};
ghost use Rattle.lps_goaltrees.specs.Followed.{AreCallFree};
ghost use Rattle.lps_goaltrees.specs.Pursued.{IsReadyPursued, left_by_close};
ghost use Rattle.lps_limits.specs.Sizes.{kept_size};
ghost use Rattle.lps_meeting.specs.Stages.{IsStateOf};
ghost use Rattle.lps_sizes.specs.Sizes.{limited};
ghost use Rattle.lps_solve.specs.Met.{AreGround};
ghost use Rattle.lps_unify.specs.Bindings.{count_of};
ghost use Rattle.lps_cycle.specs.Agenda.{AreAdded, AreKeysOfGoals, BeginsWith, GoesOn, IsPursuedOn, IsReachedBySome, IsReadyAgenda, IsRenewed, IsSameAgenda, LeadsBack};

use lps_antecedents::Waiting;
use lps_facts::Facts;
use lps_goaltrees::Goals;
use lps_limits::kept;
use lps_meaning::{Closed, GoalId, GoalKey, NewGoal, copy_key};
use lps_solve::Program;
use lps_terms::Atom;
use lps_unify::Bindings;
use std::alloc::{AllocError, Global};
use std::marker::Model;

/// How deep calls of macros may nest.
pub(crate) const DEPTH: u32 = 100;

/// What is told of a cycle: the goals that it creates, and those that it closes.
#[derive(Drop)]
pub(crate) struct Told {
    pub created: Vec<NewGoal>,
    pub closed: Vec<(GoalId, Closed)>,
}

/// What waits for antecedents, and which goals are pursued. Contracts see both, and what they were before.
#[derive(Drop)]
pub(crate) struct Agenda {
    waiting: Waiting,
    goals: Goals,
}

impl Model for Agenda {
    ghost use Rattle.lps_terms.specs.contracts.term.Term as term;
    ghost use Rattle.lps_terms.specs.contracts.expr.Expr as expr;
    ghost use Rattle.std.specs.Coded.{codes};
    ghost use Rattle.lps_cycle.specs.Agenda.{AgendaState};

    ghost Value = { AgendaState };

    ghost coded = { Prim.hlevel (codes, term.the_row.coded, expr.the_row.coded) };

    ghost view = { λ it. record { waiting = it.waiting; goals = it.goals } };
}

impl Agenda {
    /// What waits in the initial state, and the goals of the antecedents that are true in it. The facts are the initial state of a trace of
    /// the text.
    pub(crate) fn start(
        alloc: Global,
        program: &Program,
        facts: &Facts,
    ) -> Result<(Agenda, Told), AllocError>
        requires text { AreCallFree program.now }
        requires ground { (a : Fluent) → Contains (members facts.now) a → AreGround a.args }
        requires some { (level : List ℕ → ℕ) × AreLevels (clauses program.now) level × (trace : Trace) × IsStateOf program.now level trace 0 (members facts.now) }
        ensures begins { IfOk result (λ started. BeginsWith program.now 100 (members facts.now) started.0 started.1.created.items started.1.closed.items) }
        ensures ready { IfOk result (λ started. IsReadyAgenda program.now started.0) }
    {
        program.lawful();
        let mut bindings = Bindings::new(alloc, 0)?;
        let (waiting, keys) = Waiting::start(alloc, program, facts, &mut bindings)?;
        let mut goals = Goals::new(alloc);
        let told = renew(
            alloc,
            program,
            &mut goals,
            keys.as_slice(),
            facts,
            &mut bindings,
        )?;
        Ok((Agenda { waiting, goals }, told))
    }

    /// The goals that are pending.
    pub(crate) fn goals(&self) -> &Goals
        ensures { result.now ≡ self.now.goals }
    {
        &self.goals
    }

    /// How many symbols are kept of what waits and of what is pursued. `u64::MAX` stands for that number and all above.
    pub(crate) fn symbols(&self) -> u64
        ensures { result ≡ limited (kept_size self.now.waiting.held self.now.goals.pursuit.goals) }
    {
        kept(self.waiting.symbols(), self.goals.symbols())
    }

    /// Carries all of it over a cycle, and tells which goals the cycle creates and closes. The facts are the state at this time, and the
    /// events are those of the cycle that ends at it, in a trace of the text. Where memory runs out all is as before.
    pub(crate) fn go_on(
        &mut self,
        alloc: Global,
        program: &Program,
        time: u64,
        facts: &Facts,
        events: &[Atom],
    ) -> Result<Told, AllocError>
        requires time { (1 ≤ time) × (time ≤ 1000000) }
        requires text { AreCallFree program.now }
        requires ready { IsReadyAgenda program.now self.old }
        requires ground { (a : Fluent) → Contains (members facts.now) a → AreGround a.args }
        requires events { (a : Fluent) → Contains events.now a → AreGround a.args }
        requires some { IsReachedBySome program.now 100 time (members facts.now) events.now self.old }
        ensures goes_on { IfOk result (λ told. GoesOn program.now 100 time (members facts.now) events.now self.old self.new told.created.items told.closed.items) }
        ensures ready { IsReadyAgenda program.now self.new }
        ensures back { OnOk result (LeadsBack self.old self.new) }
        ensures err { OnErr result (IsSameAgenda self.new self.old) }
    {
        program.lawful();
        let mut bindings = Bindings::new(alloc, 0)?;
        let keys = self
            .waiting
            .advance(alloc, program, time, facts, events, &mut bindings)?;
        match pursue(
            alloc,
            program,
            &mut self.goals,
            keys.as_slice(),
            time,
            facts,
            events,
            &mut bindings,
        ) {
            Ok(told) => Ok(told),
            Err(error) => {
                self.waiting.undo();
                Err(error)
            }
        }
    }

    /// Takes back the last `go_on`, where nothing was called since but what reads. This takes no memory.
    pub(crate) fn undo(&mut self)
        ensures held { self.new.waiting.held ≡ self.old.waiting.before }
        ensures pursuit { self.new.goals.pursuit ≡ self.old.goals.before }
        ensures settled { self.new.goals.is_settled ≡ true }
        ensures waiting { (text : Text) → IsReadyWaiting text self.old.waiting → IsReadyWaiting text self.new.waiting }
        ensures ready { (text : Text) → IsReadyPursued text self.old.goals → IsReadyPursued text self.new.goals }
    {
        self.waiting.undo();
        self.goals.undo();
    }
}

/// Advances the goals of the cycle before, adds new ones with these keys, and closes those that are no longer pending. Where memory runs
/// out the goals are as before.
fn pursue(
    alloc: Global,
    program: &Program,
    goals: &mut Goals,
    keys: &[GoalKey],
    time: u64,
    facts: &Facts,
    events: &[Atom],
    bindings: &mut Bindings,
) -> Result<Told, AllocError>
    requires time { (1 ≤ time) × (time ≤ 1000000) }
    requires text { AreCallFree program.now }
    requires keys { AreKeysOfGoals program.now keys.now }
    requires ground { (a : Fluent) → Contains (members facts.now) a → AreGround a.args }
    requires events { (a : Fluent) → Contains events.now a → AreGround a.args }
    requires none { count_of bindings.now ≡ 0 }
    requires ready { IsReadyPursued program.now goals.old }
    requires settled { goals.old.is_settled ≡ true }
    ensures pursues { IfOk result (λ told. IsPursuedOn program.now 100 time (members facts.now) events.now keys.now goals.old.pursuit goals.new.pursuit told.created.items told.closed.items) }
    ensures ready { IsReadyPursued program.now goals.new }
    ensures settled { goals.new.is_settled ≡ true }
    ensures back { OnOk result (goals.new.before ≡ goals.old.pursuit) }
    ensures err { OnErr result (goals.new.pursuit ≡ goals.old.pursuit) }
{
    goals.advance(alloc, program, DEPTH, time, facts, events, bindings)?;
    match renew(alloc, program, goals, keys, facts, bindings) {
        Ok(told) => Ok(told),
        Err(error) => {
            goals.undo();
            Err(error)
        }
    }
}

/// Adds new goals with these keys, and closes those that are no longer pending.
fn renew(
    alloc: Global,
    program: &Program,
    goals: &mut Goals,
    keys: &[GoalKey],
    facts: &Facts,
    bindings: &mut Bindings,
) -> Result<Told, AllocError>
    requires text { AreCallFree program.now }
    requires keys { AreKeysOfGoals program.now keys.now }
    requires ground { (a : Fluent) → Contains (members facts.now) a → AreGround a.args }
    requires none { count_of bindings.now ≡ 0 }
    requires ready { IsReadyPursued program.now goals.old }
    ensures renews { IfOk result (λ told. IsRenewed program.now 100 (members facts.now) keys.now goals.old.pursuit goals.new.pursuit told.created.items told.closed.items) }
    ensures ready { IsReadyPursued program.now goals.new }
    ensures settled { OnOk result (goals.new.is_settled ≡ true) }
    ensures before { OnOk result (goals.new.before ≡ left_by_close goals.old) }
    ensures err { OnErr result (goals.old.is_settled ≡ false → goals.new.before ≡ goals.old.before) }
{
    program.lawful();
    let created = add_all(alloc, program, goals, keys, facts, bindings)?;
    let closed = goals.close(alloc)?;
    Ok(Told { created, closed })
}

/// Adds new goals with these keys.
fn add_all(
    alloc: Global,
    program: &Program,
    goals: &mut Goals,
    keys: &[GoalKey],
    facts: &Facts,
    bindings: &mut Bindings,
) -> Result<Vec<NewGoal>, AllocError>
    requires text { AreCallFree program.now }
    requires keys { AreKeysOfGoals program.now keys.now }
    requires ground { (a : Fluent) → Contains (members facts.now) a → AreGround a.args }
    requires none { count_of bindings.now ≡ 0 }
    requires ready { IsReadyPursued program.now goals.old }
    ensures adds { IfOk result (λ created. AreAdded program.now 100 (members facts.now) keys.now goals.old.pursuit goals.new.pursuit created.items) }
    ensures ready { IsReadyPursued program.now goals.new }
    ensures before { left_by_close goals.new ≡ left_by_close goals.old }
    ensures unsettled { goals.old.is_settled ≡ false → goals.new.is_settled ≡ false }
{
    let mut created = Vec::new(alloc);
    for key in keys {
        let goal = goals.add(
            alloc,
            program,
            DEPTH,
            copy_key(alloc, key)?,
            facts,
            bindings,
        )?;
        created.push(NewGoal {
            goal,
            key: copy_key(alloc, key)?,
        })?;
    }
    Ok(created)
}
