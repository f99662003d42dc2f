ghost use Rattle.std.specs.Prelude.{◌≡◌, ◌+◌, ◌<◌, ◌≤◌, [], ◌∷◌, ◌++◌, Contains, List, length, IfErr, IfOk, MatchOption, OnErr, OnOk, true};
ghost use Rattle.std.specs.List.{AllByRecursion, flat_map};
ghost use Rattle.lps_terms.specs.declared.atom.Atom.{Atom};
ghost use Rattle.lps_model.specs.declared.trace.Trace.{Trace};
ghost use Rattle.lps_model.specs.Program.{initial_in};
ghost use Rattle.lps_model.specs.Run.{AreInitial, first_trace};
ghost use Rattle.lps_model.specs.Trace.{then_cycle};
ghost use Rattle.lps_facts.specs.Facts.{members, with_facts};
ghost use Rattle.lps_goaltrees.specs.declared.goal.Goal.{Goal as Pursued};
ghost use Rattle.lps_goaltrees.specs.Followed.{AreCallFree};
ghost use Rattle.lps_cycle.specs.Admission.{MayCome};
ghost use Rattle.lps_cycle.specs.Agenda.{AgendaState, IsReadyAgenda, IsSameAgenda};
ghost use Rattle.lps_cycle.specs.Engine.{IsNotAdded, IsNotBegun, IsOfRun, Stands, counts_of};
ghost use Rattle.lps_cycle.specs.Making.{HasSomeRun, IsMade, IsNotMade, IsNotSettled, failed_among, not_made as not_made_of, sizes_of, sizes_with};
ghost use Rattle.lps_cycle.specs.Round.{IsAnew};
ghost use Rattle.lps_limits.specs.Limits.{AreCounts, IsStateCount, IsWithinLimits};
ghost use Rattle.lps_limits.specs.Sizes.{kept_size, state_size};
ghost use Rattle.lps_sizes.specs.Sizes.{cycle_size, limited};

use crate::agenda::{Agenda, Told};
use crate::error::EngineError;
use crate::round::Round;
use lps_antecedents::waiting_law;
use lps_facts::Facts;
use lps_goaltrees::{Goal, pursuit_law};
use lps_limits::{Full, Limit, MOST_IN_STATE, Sizes, first_exceeded, state_symbols};
use lps_meaning::{Closed, Counts, GoalId, NewGoal};
use lps_model::{Accepted, Cycle, Pick};
use lps_sizes::{atoms_symbols, cycle_symbols};
use lps_statuses::status_law;
use lps_terms::{Atom, Body, Prefer, Statement};
use lps_trial::{Theory, Trial};
use sqlite_items::Items;
use std::alloc::{AllocError, Global};
use std::marker::Model;

/// How a run goes on where the text leaves that open: which goals are preferred, and how many symbols are kept at most.
#[derive(Clone, Copy)]
struct Manner {
    prefer: Prefer,
    keep: u64,
}

/// What is counted of a run.
#[derive(Clone, Copy)]
struct Tally {
    /// How many goals have failed.
    failed: u64,
    /// How many symbols the state has, or a greater number. Each cycle adds those of the facts that are new in its state; where the limit
    /// is passed so, the state is counted anew.
    state: u64,
    /// How many symbols the log has.
    log: u64,
}

/// A run as it stands: its text, how it goes on, the facts of its last state, what waits for antecedents and which goals are pursued, how
/// many cycles it has, what its last cycle created and closed, and what is counted of it.
#[derive(Drop)]
pub struct Engine {
    round: Box<Round>,
    agenda: Agenda,
    manner: Manner,
    cycles: u64,
    told: Told,
    tally: Tally,
}

impl Model for Engine {
    ghost use Rattle.lps_terms.specs.contracts.term.Term as term;
    ghost use Rattle.lps_terms.specs.contracts.expr.Expr as expr;
    ghost use Rattle.std.specs.Coded.{codes};
    ghost use Rattle.std.specs.Prelude.{◌≡◌, ◌≤◌, []};
    ghost use Rattle.lps_cycle.specs.Engine.{EngineState};

    ghost Value = { EngineState };

    ghost coded = { Prim.hlevel (codes, term.the_row.coded, expr.the_row.coded) };

    ghost use Rattle.lps_goaltrees.specs.Followed.{AreCallFree};
    ghost use Rattle.lps_cycle.specs.Agenda.{IsReadyAgenda};
    ghost use Rattle.lps_cycle.specs.Round.{IsAnew};
    ghost use Rattle.lps_limits.specs.Sizes.{state_size};
    ghost use Rattle.lps_sizes.specs.Sizes.{limited};

    ghost view = { λ it. record {
      text = it.round.value.text;
      prefer = it.manner.prefer;
      keep = it.manner.keep;
      facts = it.round.value.facts;
      cycles = it.cycles;
      waiting = it.agenda.waiting.held;
      goals = it.agenda.goals.pursuit;
      created = it.told.created.items;
      closed = it.told.closed.items;
      failed = it.tally.failed;
      log = it.tally.log;
    } };

    ghost invariant = { λ it. AreCallFree it.round.value.text × IsAnew it.round.value × IsReadyAgenda it.round.value.text it.agenda × (it.cycles ≤ 1000000)
        × (it.manner.keep ≤ 8000000) × (limited (state_size it.round.value.facts) ≤ it.tally.state) };
}

/// Puts the initial facts of a statement into the facts.
fn insert_initial(facts: &mut Facts, body: &Body) -> Result<(), AllocError>
    ensures { OnOk result (facts.new ≡ with_facts true (initial_in body.now) facts.old) }
{
    match body {
        Body::Initially(atoms) => facts.insert_all(atoms.as_slice()),
        _ => Ok(()),
    }
}

/// The facts of state 0.
fn initial_facts(alloc: Global, statements: &[Statement]) -> Result<Facts, AllocError>
    ensures { IfOk result (λ facts. facts ≡ record { base = members (with_facts true (flat_map (λ s. initial_in s.body) statements.now) (record { base = []; changes = [] })); changes = [] }) }
{
    let mut facts = Facts::new(alloc);
    for statement in statements {
        insert_initial(&mut facts, &statement.body)?;
    }
    facts.settle();
    Ok(facts)
}

/// How many goals of some that are closed have failed.
fn failed_in(closed: &[(GoalId, Closed)]) -> usize
    ensures { result ≡ failed_among closed.now }
{
    closed
        .iter()
        .filter(|goal| goal.1 == Closed::Failed)
        .count()
}

/// The round of no cycles yet, in the initial state of the text.
fn first_round(alloc: Global, text: Accepted) -> Result<Box<Round>, AllocError>
    ensures text { IfOk result (λ round. round.value.text ≡ text) }
    ensures facts { IfOk result (λ round. AreInitial text round.value.facts) }
    ensures anew { IfOk result (λ round. IsAnew round.value) }
{
    let statements = text.text().statements.as_slice();
    let facts = initial_facts(alloc, statements)?;
    let same = initial_facts(alloc, statements)?;
    let trial = Trial::new(alloc, facts, same);
    let theory = Theory::new(alloc, text)?;
    let round = Box::new(alloc, Round::new(alloc, theory, trial))?;
    Ok(round)
}

/// A count of the symbols of the state after what happens so far, where the state before has at most so many. It is exact where it is over
/// the limit.
fn state_count(alloc: Global, round: &Round, before: u64) -> Result<u64, AllocError>
    requires { limited (state_size round.now.facts) ≤ before }
    ensures { IfOk result (λ count. IsStateCount count (state_size round.now.next)) }
{
    let begun = round.begun(alloc)?;
    let most = before.saturating_add(atoms_symbols(begun.as_slice()));
    round.next().lawful();
    if most <= MOST_IN_STATE {
        Ok(most)
    } else {
        state_symbols(alloc, round.next())
    }
}

/// The symbols of the run with the cycle that is made, as they are counted.
fn count(
    alloc: Global,
    round: &Round,
    events: &[Atom],
    kept: u64,
    tally: &Tally,
) -> Result<Sizes, AllocError>
    requires { limited (state_size round.now.facts) ≤ tally.now.state }
    ensures state { IfOk result (λ counts. IsStateCount counts.state (state_size round.now.next)) }
    ensures counts { IfOk result (λ counts. (agenda : AgendaState) → kept ≡ limited (kept_size agenda.waiting.held agenda.goals.pursuit.goals) →
        AreCounts counts (sizes_with round.now.next agenda tally.now.log events.now round.now.picks)) }
{
    let state = state_count(alloc, round, tally.state)?;
    let log = tally
        .log
        .saturating_add(cycle_symbols(events, round.picks()));
    Ok(Sizes { state, kept, log })
}

/// Why a cycle is not settled.
#[derive(Clone, Copy, Debug)]
enum NotSettled {
    NoMemory,
    /// This is the first limit that is exceeded, by so many symbols.
    Over(Limit, u64),
}

impl From<AllocError> for NotSettled {
    ghost use Rattle.lps_cycle.specs.declared.engine.NotSettled.TheVariants.{NoMemory};

    ghost from_gives = { λ _ error. error ≡ NoMemory };

    fn from(_error: AllocError) -> NotSettled {
        NotSettled::NoMemory
    }
}

/// Makes what happens the last cycle, of which this is told, where no limit is exceeded with it: with so many symbols kept, of at most so
/// many. Gives its picks and what is counted then. Where it is not settled all is as before.
fn settle(
    alloc: Global,
    round: &mut Round,
    events: &[Atom],
    told: &Told,
    kept: u64,
    keep: u64,
    tally: &Tally,
) -> Result<(Items<Pick>, Tally), NotSettled>
    requires keep { keep ≤ 8000000 }
    requires state { limited (state_size round.old.facts) ≤ tally.now.state }
    ensures picks { IfOk result (λ done. done.0 ≡ round.old.picks) }
    ensures failed { IfOk result (λ done. done.1.failed ≡ tally.now.failed + failed_among told.now.closed.items) }
    ensures state { IfOk result (λ done. limited (state_size round.new.facts) ≤ done.1.state) }
    ensures within { IfOk result (λ done. (agenda : AgendaState) → kept ≡ limited (kept_size agenda.waiting.held agenda.goals.pursuit.goals) →
        IsWithinLimits keep (sizes_of round.new.facts agenda done.1.log) × (done.1.log ≡ tally.now.log + cycle_size (record { events = events.now; verdicts = []; picks = done.0 }))) }
    ensures facts { OnOk result (round.new.facts ≡ round.old.next) }
    ensures anew { OnOk result (IsAnew round.new) }
    ensures text { round.new.text ≡ round.old.text }
    ensures over { IfErr result (λ error. (agenda : AgendaState) → kept ≡ limited (kept_size agenda.waiting.held agenda.goals.pursuit.goals) →
        IsNotSettled keep (sizes_with round.old.next agenda tally.now.log events.now round.old.picks) error) }
    ensures err { OnErr result (round.new ≡ round.old) }
{
    let failed = tally
        .failed
        .checked_add(failed_in(told.closed.as_slice()) as u64)
        .ok_or(AllocError)?;
    let counts = count(alloc, round, events, kept, tally)?;
    if let Some((limit, symbols)) = first_exceeded(&counts, keep) {
        return Err(NotSettled::Over(limit, symbols));
    }
    let picks = round.settle(alloc)?;
    let Sizes {
        state,
        kept: _,
        log,
    } = counts;
    Ok((picks, Tally { failed, state, log }))
}

/// Why the cycle that was tried is not made.
fn not_made(error: NotSettled, cycle: u64, tried: Cycle) -> EngineError
    ensures { result ≡ not_made_of error cycle tried }
{
    match error {
        NotSettled::NoMemory => EngineError::NoMemory,
        NotSettled::Over(limit, symbols) => EngineError::Full(Full {
            limit,
            cycle,
            symbols,
            tried,
        }),
    }
}

/// What a cycle comes to.
#[derive(Drop)]
struct Made {
    cycle: Cycle,
    told: Told,
    tally: Tally,
}

/// Makes the cycle after so many others. Where it is not made the agenda has what it had, and a part of what happens may be left in the
/// round.
fn make(
    alloc: Global,
    round: &mut Round,
    agenda: &mut Agenda,
    manner: Manner,
    time: u64,
    tally: &Tally,
    events: Items<Atom>,
) -> Result<Made, EngineError>
    requires text { AreCallFree round.old.text }
    requires anew { IsAnew round.old }
    requires ready { IsReadyAgenda round.old.text agenda.old }
    requires events { AllByRecursion (MayCome round.old.text) events }
    requires room { time < 1000000 }
    requires keep { manner.keep ≤ 8000000 }
    requires state { limited (state_size round.old.facts) ≤ tally.now.state }
    requires run { HasSomeRun round.old.text 100 time round.old.facts agenda.old }
    ensures made { IfOk result (λ made. IsMade round.old.text 100 manner.prefer time round.old.facts round.new.facts agenda.old agenda.new events made.cycle.verdicts made.cycle.picks made.told.created.items made.told.closed.items) }
    ensures events { IfOk result (λ made. made.cycle.events ≡ events) }
    ensures failed { IfOk result (λ made. made.tally.failed ≡ tally.now.failed + failed_among made.told.closed.items) }
    ensures state { IfOk result (λ made. limited (state_size round.new.facts) ≤ made.tally.state) }
    ensures log { IfOk result (λ made. made.tally.log ≡ tally.now.log + cycle_size made.cycle) }
    ensures within { IfOk result (λ made. IsWithinLimits manner.keep (sizes_of round.new.facts agenda.new made.tally.log)) }
    ensures anew { OnOk result (IsAnew round.new) }
    ensures text { round.new.text ≡ round.old.text }
    ensures ready { IsReadyAgenda round.old.text agenda.new }
    ensures same { OnErr result (IsSameAgenda agenda.new agenda.old) }
    ensures facts { OnErr result (round.new.facts ≡ round.old.facts) }
    ensures over { IfErr result (IsNotMade round.old.text 100 manner.prefer manner.keep time tally.now.log round.old.facts agenda.old events) }
{
    let batch = events.as_slice();
    let verdicts = round.decide(alloc, manner.prefer, time, agenda.goals(), batch)?;
    round.lawful();
    waiting_law();
    pursuit_law();
    let told = agenda.go_on(
        alloc,
        round.program(),
        time + 1,
        round.next(),
        round.events(),
    )?;
    let kept = agenda.symbols();
    match settle(alloc, round, batch, &told, kept, manner.keep, tally) {
        Ok((picks, tally)) => {
            let cycle = Cycle {
                events,
                verdicts,
                picks,
            };
            Ok(Made { cycle, told, tally })
        }
        Err(error) => {
            agenda.undo();
            let picks = round.clear(alloc);
            let tried = Cycle {
                events,
                verdicts,
                picks,
            };
            Err(not_made(error, time + 1, tried))
        }
    }
}

/// The symbols of the run of no cycles, as they are counted.
fn first_counts(alloc: Global, round: &Round, agenda: &Agenda) -> Result<Sizes, AllocError>
    ensures { IfOk result (λ counts. AreCounts counts (sizes_of round.now.facts agenda.now 0)) }
{
    let state = state_symbols(alloc, round.state())?;
    Ok(Sizes {
        state,
        kept: agenda.symbols(),
        log: 0,
    })
}

impl Engine {
    /// The run of no cycles of a text whose consequents call no macros, in which the oldest or the newest goals are preferred, and so many
    /// symbols are kept at most.
    pub fn start(
        alloc: Global,
        text: Accepted,
        prefer: Prefer,
        keep: u64,
    ) -> Result<Engine, EngineError>
        requires free { AreCallFree text }
        requires keep { keep ≤ 8000000 }
        ensures text { IfOk result (λ engine. engine.text ≡ text) }
        ensures prefer { IfOk result (λ engine. engine.prefer ≡ prefer) }
        ensures keep { IfOk result (λ engine. engine.keep ≡ keep) }
        ensures stands { IfOk result (λ engine. Stands engine [] (first_trace engine.facts)) }
        ensures full { IfErr result (IsNotBegun text keep) }
    {
        let round = first_round(alloc, text)?;
        round.lawful();
        round.program().lawful();
        let (agenda, told) = Agenda::start(alloc, round.program(), round.state())?;
        let failed = failed_in(told.closed.as_slice()) as u64;
        let counts = first_counts(alloc, &round, &agenda)?;
        if let Some((limit, symbols)) = first_exceeded(&counts, keep) {
            let tried = Cycle::none(alloc);
            return Err(EngineError::Full(Full {
                limit,
                cycle: 0,
                symbols,
                tried,
            }));
        }
        let state = counts.state;
        Ok(Engine {
            round,
            agenda,
            manner: Manner { prefer, keep },
            cycles: 0,
            told,
            tally: Tally {
                failed,
                state,
                log: 0,
            },
        })
    }

    /// The text of the run.
    pub fn text(&self) -> &Accepted
        ensures { result.now ≡ self.now.text }
    {
        self.round.text()
    }

    /// The facts of the last state.
    pub fn facts(&self) -> &Facts
        ensures { members result.now ≡ self.now.facts }
    {
        self.round.state()
    }

    /// How many cycles the run has.
    pub fn cycles(&self) -> u64
        ensures count { result ≡ self.now.cycles }
        ensures few { result ≤ 1000000 }
    {
        self.cycles
    }

    /// The pending goal with a number.
    pub fn goal(&self, goal: GoalId) -> Option<&Goal>
        ensures { MatchOption result ((g : Pursued) → Contains self.now.goals.goals g → g.goal ≡ goal → ⊥) (λ g. Contains self.now.goals.goals g.now × (g.now.goal ≡ goal)) }
    {
        self.agenda.goals().goal(goal)
    }

    /// The goals that the last cycle created, by number.
    pub fn created(&self) -> &[NewGoal]
        ensures { result.now ≡ self.now.created }
    {
        self.told.created.as_slice()
    }

    /// The goals that the last cycle closed, by number, each with how it was closed.
    pub fn closed(&self) -> &[(GoalId, Closed)]
        ensures { result.now ≡ self.now.closed }
    {
        self.told.closed.as_slice()
    }

    /// How many goals are pending, and how many have failed so far; none is cut.
    pub fn counts(&self) -> Counts
        ensures { result ≡ counts_of self.now }
    {
        Counts {
            pending: self.agenda.goals().count() as u64,
            failed: self.tally.failed,
            cut: 0,
        }
    }

    /// How many symbols are kept of what waits for antecedents and of the goals that are pursued.
    pub fn kept(&self) -> u64
        ensures { result ≡ limited (kept_size self.now.waiting self.now.goals.goals) }
    {
        self.agenda.symbols()
    }

    /// How many symbols the log has: those of all cycles so far.
    pub fn log_symbols(&self) -> u64
        ensures { result ≡ self.now.log }
    {
        self.tally.log
    }

    /// Adds the cycle of a batch with these events, and gives it. Each event is admitted, or rejected by the least denial that it
    /// violates together with those admitted before it. Then actions are picked for the pending goals, the state is updated by all that
    /// happens, what waits is carried on, and goals are created, advanced and closed. Where memory runs out, or the cycle would exceed a
    /// limit, the run stands as it stood.
    pub fn cycle(&mut self, alloc: Global, events: Items<Atom>) -> Result<Cycle, EngineError>
        requires room { self.old.cycles < 1000000 }
        requires few { length events ≤ 1000 }
        requires events { AllByRecursion (MayCome self.old.text) events }
        requires run { IsOfRun self.old }
        ensures text { self.new.text ≡ self.old.text }
        ensures prefer { self.new.prefer ≡ self.old.prefer }
        ensures keep { self.new.keep ≡ self.old.keep }
        ensures count { OnOk result (self.new.cycles ≡ self.old.cycles + 1) }
        ensures err { OnErr result (self.new ≡ self.old) }
        ensures stands { IfOk result (λ cycle. (batches : List (List Atom)) (trace : Trace) → Stands self.old batches trace → Stands self.new (batches ++ events ∷ []) (then_cycle trace cycle)) }
        ensures full { IfErr result (IsNotAdded self.old events) }
    {
        self.round.program().lawful();
        waiting_law();
        pursuit_law();
        status_law();
        let made = make(
            alloc,
            &mut self.round,
            &mut self.agenda,
            self.manner,
            self.cycles,
            &self.tally,
            events,
        );
        match made {
            Ok(Made { cycle, told, tally }) => {
                self.cycles += 1;
                self.told = told;
                self.tally = tally;
                Ok(cycle)
            }
            Err(error) => {
                let _ = self.round.clear(alloc);
                Err(error)
            }
        }
    }
}
