ghost use Rattle.std.specs.Prelude.{◌≡◌, ◌⊎◌, ◌++◌, [], Contains, IfOk, OnErr, OnOk, MatchOption, None, length, take, not, false};
ghost use Rattle.std.specs.List.{filter};
ghost use Rattle.lps_terms.specs.declared.atom.Atom.{Atom as Fact};
ghost use Rattle.lps_terms.specs.declared.text.Text.{Text};
ghost use Rattle.lps_facts.specs.Facts.{IsLater, is_among, members, with_effects, with_facts};
ghost use Rattle.lps_causal.specs.Names.{AreEvents, AreFluents};
ghost use Rattle.lps_causal.specs.Next.{IsUpdate};
ghost use Rattle.lps_precond.specs.Judged.{IsJudged};
ghost use Rattle.lps_precond.specs.Stages.{AreNews};
ghost use Rattle.lps_trial.specs.Trial.{InState, IsGrown, IsLonger, IsMoment, IsTrial, back_at, moment_of, trial_in};

use crate::theory::Theory;
use lps_facts::{Facts, Mark};
use lps_precond::Step;
use lps_terms::{Atom, Effects, copy_atom};
use sqlite_items::Items;
use std::alloc::{AllocError, Global};
use std::marker::Model;

/// The events of a cycle so far, with the states before and after them. Contracts see these, and what the events initiate and
/// terminate.
#[derive(Drop)]
pub struct Trial {
    state: Facts,
    next: Facts,
    /// What the events initiate, which no termination ends.
    begun: Facts,
    /// What the events terminate, but for what was initiated until then.
    ended: Vec<Atom>,
    events: Vec<Atom>,
    /// The events as a set.
    happened: Facts,
}

impl Model for Trial {
    ghost use Rattle.lps_terms.specs.contracts.term.Term as term;
    ghost use Rattle.std.specs.Coded.{codes};
    ghost use Rattle.lps_trial.specs.Trial.{TrialState};

    ghost Value = { TrialState };

    ghost coded = { Prim.hlevel (codes, term.the_row.coded) };

    ghost view = { λ it. record { state = it.state; next = it.next; begun = it.begun; ended = it.ended.items; events = it.events.items; happened = it.happened } };
}

/// A moment in the life of a trial, to which `Trial::undo_to` leads back.
#[derive(Drop)]
pub struct TrialMark {
    next: Mark,
    begun: Mark,
    ended: usize,
    events: usize,
    happened: Mark,
}

impl Model for TrialMark {
    ghost use Rattle.lps_trial.specs.Trial.{Moment};

    ghost Value = { Moment };

    ghost view = { λ it. record { next = it.next; begun = it.begun; ended = it.ended; events = it.events; happened = it.happened } };
}

impl Trial {
    /// No events, in a state that is given twice: it becomes the state before and the one after.
    pub fn new(alloc: Global, state: Facts, next: Facts) -> Trial
        requires { next ≡ state }
        ensures anew { result ≡ trial_in state }
        ensures trial { (text : Text) → AreFluents text (members state) → IsTrial text result }
    {
        state.lawful();
        Trial {
            state,
            next,
            begun: Facts::new(alloc),
            ended: Vec::new(alloc),
            events: Vec::new(alloc),
            happened: Facts::new(alloc),
        }
    }

    /// The facts of the state before the events.
    pub fn state(&self) -> &Facts
        ensures { result.now ≡ self.now.state }
    {
        &self.state
    }

    /// The facts of the state after the events so far.
    pub fn next(&self) -> &Facts
        ensures { result.now ≡ self.now.next }
    {
        &self.next
    }

    /// The events so far, in the order in which they were tried.
    pub fn events(&self) -> &[Atom]
        ensures { result.now ≡ self.now.events }
    {
        self.events.as_slice()
    }

    /// Copies of the facts of the state after the events that are not in the state before.
    pub fn begun(&self, alloc: Global, theory: &Theory) -> Result<Vec<Atom>, AllocError>
        requires trial { IsTrial theory.now self.now }
        ensures all { IfOk result (λ begun. (a : Fact) → Contains (members self.now.next) a → Contains (members self.now.state) a ⊎ Contains begun.items a) }
        ensures only { IfOk result (λ begun. (a : Fact) → Contains begun.items a → Contains (members self.now.next) a × (Contains (members self.now.state) a → ⊥)) }
    {
        theory.lawful();
        let begun = self.begun.sorted(alloc)?;
        others(alloc, begun.as_slice(), &self.state)
    }

    /// This moment, to which `undo_to` leads back.
    pub fn mark(&self) -> TrialMark
        ensures { result ≡ moment_of self.now }
    {
        TrialMark {
            next: self.next.mark(),
            begun: self.begun.mark(),
            ended: self.ended.len(),
            events: self.events.len(),
            happened: self.happened.mark(),
        }
    }

    /// Takes the trial back to the mark, which is one of this trial that nothing was undone past. This takes no memory.
    pub fn undo_to(&mut self, mark: &TrialMark)
        requires { IsMoment mark.now self.now }
        ensures { self.new ≡ back_at mark.now self.old }
    {
        self.next.undo_to(&mark.next);
        self.begun.undo_to(&mark.begun);
        self.ended.truncate(mark.ended);
        self.events.truncate(mark.events);
        self.happened.undo_to(&mark.happened);
    }

    /// Makes the trial longer by some events, where they violate no denial together with those before them; else it stays as it
    /// is, and the least number of a denial that is violated is answered. The events are one of a batch, or the actions of a
    /// group.
    ///
    /// An error comes where memory runs out, and leaves the trial as it was.
    pub fn try_events(
        &mut self,
        alloc: Global,
        theory: &Theory,
        events: &[Atom],
    ) -> Result<Option<u32>, AllocError>
        requires trial { IsTrial theory.now self.now }
        requires events { AreEvents theory.now events.now }
        ensures trial { IsTrial theory.now self.new }
        ensures judged { IfOk result (λ found. InState theory.now (members self.old.state) (λ level trace. IsJudged theory.now level trace (self.old.events ++ events.now) found)) }
        ensures events { IfOk result (λ found. MatchOption found (self.new.events ≡ self.old.events ++ events.now) (λ denial. self.new ≡ self.old)) }
        ensures err { OnErr result (self.new ≡ self.old) }
        ensures longer { IsLonger self.old self.new }
    {
        let mark = self.mark();
        match self.tried(alloc, theory, events) {
            Ok(None) => Ok(None),
            Ok(Some(number)) => {
                self.undo_to(&mark);
                Ok(Some(number))
            }
            Err(error) => {
                self.undo_to(&mark);
                Err(error)
            }
        }
    }

    /// The least number of a denial that is violated. On an answer the trial is longer by the events.
    fn tried(
        &mut self,
        alloc: Global,
        theory: &Theory,
        events: &[Atom],
    ) -> Result<Option<u32>, AllocError>
        requires trial { IsTrial theory.now self.now }
        requires events { AreEvents theory.now events.now }
        ensures trial { IfOk result (λ found. found ≡ None → IsTrial theory.now self.new) }
        ensures judged { IfOk result (λ found. InState theory.now (members self.old.state) (λ level trace. IsJudged theory.now level trace (self.old.events ++ events.now) found)) }
        ensures events { OnOk result (self.new.events ≡ self.old.events ++ events.now) }
        ensures longer { IsLonger self.old self.new }
    {
        let touched = self.extend(alloc, theory, events)?;
        self.least_violated(alloc, theory, events, touched.as_slice())
    }

    /// The least number of a denial that the events so far violate, of which all but the new ones violate none. Only in the touched
    /// fluents may the state after be another than that which the old ones make.
    fn least_violated(
        &self,
        alloc: Global,
        theory: &Theory,
        new: &[Atom],
        touched: &[Atom],
    ) -> Result<Option<u32>, AllocError>
        requires grown { IsGrown theory.now self.now }
        requires news { AreNews theory.now self.now.events new.now (members self.now.happened) (members self.now.state) (members self.now.next) touched.now }
        ensures judged { IfOk result (λ found. InState theory.now (members self.now.state) (λ level trace. IsJudged theory.now level trace self.now.events found)) }
        ensures trial { IfOk result (λ found. found ≡ None → IsTrial theory.now self.now) }
    {
        let step = Step {
            events: self.events.as_slice(),
            happened: &self.happened,
            new,
            before: &self.state,
            after: &self.next,
            touched,
        };
        theory.least_violated(alloc, &step)
    }

    /// Makes the trial longer by the events and their effects, or by a part of them where memory runs out. The fluents that they
    /// touch are given: in no other one is the state after changed.
    fn extend(
        &mut self,
        alloc: Global,
        theory: &Theory,
        events: &[Atom],
    ) -> Result<Vec<Atom>, AllocError>
        requires trial { IsTrial theory.now self.now }
        requires events { AreEvents theory.now events.now }
        ensures grown { OnOk result (IsGrown theory.now self.new) }
        ensures news { IfOk result (λ touched. AreNews theory.now self.new.events events.now (members self.new.happened) (members self.new.state) (members self.new.next) touched.items) }
        ensures events { OnOk result (self.new.events ≡ self.old.events ++ events.now) }
        ensures longer { IsLonger self.old self.new }
    {
        theory.lawful();
        let effects = theory.effects(alloc, &self.state, events)?;
        let effects = but_for(alloc, effects, &self.begun)?;
        self.begun.insert_all(effects.initiated.as_slice())?;
        let touched = touched_by(alloc, &effects, &self.next, &self.begun)?;
        push_all(alloc, &mut self.ended, effects.terminated.as_slice())?;
        self.next.apply(effects)?;
        self.happened.insert_all(events)?;
        push_all(alloc, &mut self.events, events)?;
        Ok(touched)
    }

    /// Makes the state after the events the state before, and begins anew without events: nothing that was done until now can be
    /// taken back. Where memory runs out, the trial stays as it is.
    pub fn update(&mut self, alloc: Global, theory: &Theory) -> Result<(), AllocError>
        requires trial { IsTrial theory.now self.now }
        ensures next { OnOk result (IsUpdate theory.now (members self.old.state) self.old.events (members self.new.state)) }
        ensures trial { OnOk result (IsTrial theory.now self.new) }
        ensures events { OnOk result (self.new.events ≡ []) }
        ensures err { OnErr result (self.new ≡ self.old) }
    {
        theory.lawful();
        self.state.lawful();
        make_at_once(alloc, &mut self.state, self.ended.as_slice(), &self.begun)?;
        self.state.settle();
        self.next.settle();
        self.begun = Facts::new(alloc);
        self.ended.truncate(0);
        self.events.truncate(0);
        self.happened = Facts::new(alloc);
        Ok(())
    }
}

/// Takes what ended out of the facts, and then puts in what has begun. Where memory runs out the facts stay as they are.
fn make_at_once(
    alloc: Global,
    facts: &mut Facts,
    ended: &[Atom],
    begun: &Facts,
) -> Result<(), AllocError>
    ensures made { OnOk result (facts.new ≡ with_effects (record { initiated = members begun.now; terminated = ended.now }) facts.old) }
    ensures err { OnErr result (facts.new ≡ facts.old) }
{
    let mark = facts.mark();
    let done = make(alloc, facts, ended, begun);
    if done.is_err() {
        facts.undo_to(&mark);
    }
    done
}

/// The same, but that a part of it is done where memory runs out.
fn make(alloc: Global, facts: &mut Facts, ended: &[Atom], begun: &Facts) -> Result<(), AllocError>
    ensures made { OnOk result (facts.new ≡ with_effects (record { initiated = members begun.now; terminated = ended.now }) facts.old) }
    ensures later { IsLater facts.old facts.new }
{
    remove_all(facts, ended)?;
    let begun = begun.sorted(alloc)?;
    facts.insert_all(begun.as_slice())
}

/// Takes each of these out. Where memory runs out some of them may be out.
fn remove_all(facts: &mut Facts, gone: &[Atom]) -> Result<(), AllocError>
    ensures all { OnOk result (facts.new ≡ with_facts false gone.now facts.old) }
    ensures later { IsLater facts.old facts.new }
{
    for fact in gone {
        facts.remove(fact)?;
    }
    Ok(())
}

/// The fluents that the effects initiate and that are not among the facts, and those that they terminate, but for what has begun.
fn touched_by(
    alloc: Global,
    effects: &Effects,
    facts: &Facts,
    begun: &Facts,
) -> Result<Vec<Atom>, AllocError>
    ensures { IfOk result (λ touched. touched.items ≡ filter (λ a. not (is_among (members facts.now) a)) effects.now.initiated ++ filter (λ a. not (is_among (members begun.now) a)) effects.now.terminated) }
{
    let mut touched = others(alloc, effects.initiated.as_slice(), facts)?;
    add_others(alloc, effects.terminated.as_slice(), begun, &mut touched)?;
    Ok(touched)
}

/// The effects without the terminations of what was begun.
fn but_for(alloc: Global, effects: Effects, begun: &Facts) -> Result<Effects, AllocError>
    ensures initiated { IfOk result (λ kept. kept.initiated ≡ effects.initiated) }
    ensures terminated { IfOk result (λ kept. kept.terminated ≡ filter (λ a. not (is_among (members begun.now) a)) effects.terminated) }
{
    let Effects {
        initiated,
        terminated,
    } = effects;
    let terminated = Items::from_vec(others(alloc, terminated.as_slice(), begun)?);
    Ok(Effects {
        initiated,
        terminated,
    })
}

/// Copies of the fluents that are none of these.
fn others(alloc: Global, fluents: &[Atom], these: &Facts) -> Result<Vec<Atom>, AllocError>
    ensures { IfOk result (λ kept. kept.items ≡ filter (λ a. not (is_among (members these.now) a)) fluents.now) }
{
    let mut kept = Vec::new(alloc);
    add_others(alloc, fluents, these, &mut kept)?;
    Ok(kept)
}

/// Adds copies of the fluents that are none of these.
fn add_others(
    alloc: Global,
    fluents: &[Atom],
    these: &Facts,
    kept: &mut Vec<Atom>,
) -> Result<(), AllocError>
    ensures { OnOk result (kept.new.items ≡ kept.old.items ++ filter (λ a. not (is_among (members these.now) a)) fluents.now) }
{
    for fluent in fluents {
        if !these.contains(fluent) {
            kept.push(copy_atom(alloc, fluent)?)?;
        }
    }
    Ok(())
}

/// Adds copies of these.
fn push_all(alloc: Global, all: &mut Vec<Atom>, more: &[Atom]) -> Result<(), AllocError>
    ensures all { OnOk result (all.new.items ≡ all.old.items ++ more.now) }
    ensures first { take (length all.old.items) all.new.items ≡ all.old.items }
{
    for atom in more {
        all.push(copy_atom(alloc, atom)?)?;
    }
    Ok(())
}
