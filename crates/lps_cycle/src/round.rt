//! A cycle that is being made: its events are admitted, and actions are picked for the pending goals.
ghost use Rattle.std.specs.Prelude.{◌≡◌, ◌⊎◌, ◌++◌, [], Contains, IfOk, IsTrue, OnErr, OnOk};
ghost use Rattle.std.specs.List.{AllByRecursion};
ghost use Rattle.std.specs.List.Sorted.{IsStrictlySortedBy};
ghost use Rattle.lps_terms.specs.declared.atom.Atom.{Atom as Fact};
ghost use Rattle.lps_terms.specs.Order.{atom_cmp};
ghost use Rattle.lps_model.specs.Acceptance.{IsAccepted};
ghost use Rattle.lps_model.specs.Formed.{is_formed};
ghost use Rattle.lps_model.specs.Trace.{admitted};
ghost use Rattle.lps_facts.specs.Facts.{members};
ghost use Rattle.lps_causal.specs.Names.{AreEvents, AreFluents};
ghost use Rattle.lps_causal.specs.Next.{IsUpdate};
ghost use Rattle.lps_goaltrees.specs.Pursued.{AreReadyGoals, Pursuit};
ghost use Rattle.lps_trial.specs.Trial.{IsTrial};
ghost use Rattle.lps_cycle.specs.Admission.{AreAdmitted, MayCome};
ghost use Rattle.lps_cycle.specs.Round.{AreProposers, ArePursued, IsAnew, IsDecision, IsSameBut, by_picks};

use crate::admission::admit;
use crate::candidates::Candidates;
use lps_choice::{Chooser, Plain, World, choice_law, copy_group};
use lps_facts::Facts;
use lps_goaltrees::{Goals, offer_law};
use lps_meaning::GoalId;
use lps_model::{Accepted, Group, Pick, Verdict};
use lps_nodes::led_law;
use lps_solve::Program;
use lps_terms::{Atom, Prefer};
use lps_trial::{Theory, Trial, TrialMark};
use sqlite_items::Items;
use std::alloc::{AllocError, Global};
use std::marker::Model;
use std::mem::replace;

/// A cycle that is being made. Between two cycles nothing happens in it.
#[derive(Drop)]
pub(crate) struct Round {
    theory: Theory,
    trial: Trial,
    /// How many of the events of the trial are of the batch; the others are those of the picks.
    admitted: usize,
    candidates: Candidates,
    picks: Vec<Pick>,
    /// What the trial was when nothing happened yet.
    start: TrialMark,
}

impl Model for Round {
    ghost use Rattle.lps_terms.specs.contracts.term.Term as term;
    ghost use Rattle.lps_terms.specs.contracts.expr.Expr as expr;
    ghost use Rattle.std.specs.Coded.{codes};
    ghost use Rattle.std.specs.Prelude.{take};
    ghost use Rattle.lps_facts.specs.Facts.{members};
    ghost use Rattle.lps_cycle.specs.Candidates.{proposers_of};
    ghost use Rattle.lps_cycle.specs.Round.{IsRound, RoundState};

    ghost Value = { RoundState };

    ghost coded = { Prim.hlevel (codes, term.the_row.coded, expr.the_row.coded) };

    ghost view = { λ it. record {
      text = it.theory;
      facts = members it.trial.state;
      events = it.trial.events;
      next = members it.trial.next;
      picks = it.picks.items;
      admitted = take it.admitted it.trial.events;
      proposers = proposers_of it.candidates;
    } };

    ghost invariant = { λ it. IsRound it.theory it.trial it.admitted it.candidates it.picks.items it.start };
}

impl Round {
    /// Nothing happens yet in the state of the trial.
    pub(crate) fn new(alloc: Global, theory: Theory, trial: Trial) -> Round
        requires trial { IsTrial theory trial }
        requires anew { trial.events ≡ [] }
        ensures text { result.text ≡ theory }
        ensures facts { result.facts ≡ members trial.state }
        ensures anew { IsAnew result }
    {
        let start = trial.mark();
        Round {
            theory,
            trial,
            admitted: 0,
            candidates: Candidates::new(alloc),
            picks: Vec::new(alloc),
            start,
        }
    }

    /// The text.
    pub(crate) fn text(&self) -> &Accepted
        ensures { result.now ≡ self.now.text }
    {
        self.theory.text()
    }

    /// The text, to be searched.
    pub(crate) fn program(&self) -> &Program
        ensures { result.now ≡ self.now.text }
    {
        self.theory.program()
    }

    /// The facts of the state before the events.
    pub(crate) fn state(&self) -> &Facts
        ensures { members result.now ≡ self.now.facts }
    {
        self.trial.state()
    }

    /// The facts of the state after the events so far.
    pub(crate) fn next(&self) -> &Facts
        ensures { members result.now ≡ self.now.next }
    {
        self.trial.next()
    }

    /// What happens so far.
    pub(crate) fn events(&self) -> &[Atom]
        ensures { result.now ≡ self.now.events }
    {
        self.trial.events()
    }

    /// The picks among what happens so far.
    pub(crate) fn picks(&self) -> &[Pick]
        ensures { result.now ≡ self.now.picks }
    {
        self.picks.as_slice()
    }

    /// Copies of the facts of the state after the events so far that are not in the state before.
    pub(crate) fn begun(&self, alloc: Global) -> Result<Vec<Atom>, AllocError>
        ensures { IfOk result (λ begun. (a : Fact) → Contains self.now.next a → Contains self.now.facts a ⊎ Contains begun.items a) }
    {
        self.trial.begun(alloc, &self.theory)
    }

    /// What holds of a round. It does nothing.
    pub(crate) fn lawful(&self)
        ensures accepted { IsAccepted self.now.text }
        ensures formed { IsTrue (is_formed self.now.text) }
        ensures sorted { IsStrictlySortedBy atom_cmp self.now.facts }
        ensures facts { AreFluents self.now.text self.now.facts }
        ensures events { AreEvents self.now.text self.now.events }
        ensures next { IsUpdate self.now.text self.now.facts self.now.events self.now.next }
        ensures happen { self.now.events ≡ self.now.admitted ++ by_picks self.now.picks }
    {
        self.theory.program().lawful();
        self.trial.state().lawful();
    }

    /// Judges the events of a batch, and makes the picks for the pending goals, of which those are preferred that are asked for. The
    /// goals are those pending after so many cycles.
    pub(crate) fn decide(
        &mut self,
        alloc: Global,
        prefer: Prefer,
        time: u64,
        goals: &Goals,
        events: &[Atom],
    ) -> Result<Items<Verdict>, AllocError>
        requires anew { IsAnew self.old }
        requires events { AllByRecursion (MayCome self.old.text) events.now }
        requires ready { AreReadyGoals self.old.text goals.now.pursuit.goals }
        requires pursued { ArePursued self.old.text 100 time self.old.facts goals.now.pursuit.goals }
        ensures decided { IfOk result (λ verdicts. (pursuit : Pursuit) → pursuit.goals ≡ goals.now.pursuit.goals →
            IsDecision self.old.text 100 prefer time self.old.facts pursuit events.now verdicts self.new.picks) }
        ensures events { IfOk result (λ verdicts. self.new.events ≡ admitted events.now verdicts ++ by_picks self.new.picks) }
        ensures text { self.new.text ≡ self.old.text }
        ensures facts { self.new.facts ≡ self.old.facts }
    {
        let verdicts = self.judge(alloc, events)?;
        self.ask(alloc, time, goals)?;
        Plain { prefer }.choose(alloc, self)?;
        self.lawful();
        choice_law::<Round>();
        offer_law();
        Ok(verdicts)
    }

    /// Judges the events of a batch, of which the admitted ones happen.
    fn judge(&mut self, alloc: Global, events: &[Atom]) -> Result<Items<Verdict>, AllocError>
        requires anew { IsAnew self.old }
        requires events { AllByRecursion (MayCome self.old.text) events.now }
        ensures admitted { IfOk result (λ verdicts. AreAdmitted self.old.text self.old.facts events.now verdicts self.new.admitted) }
        ensures picks { self.new.picks ≡ [] }
        ensures text { self.new.text ≡ self.old.text }
        ensures facts { self.new.facts ≡ self.old.facts }
    {
        let verdicts = admit(alloc, &self.theory, &mut self.trial, events);
        self.admitted = self.trial.events().len();
        verdicts
    }

    /// Asks the pending goals what they propose.
    fn ask(&mut self, alloc: Global, time: u64, goals: &Goals) -> Result<(), AllocError>
        requires ready { AreReadyGoals self.old.text goals.now.pursuit.goals }
        requires pursued { ArePursued self.old.text 100 time self.old.facts goals.now.pursuit.goals }
        requires picks { self.old.picks ≡ [] }
        ensures proposers { OnOk result (AreProposers self.old.text time goals.now.pursuit.goals self.new.proposers) }
        ensures same { IsSameBut self.old self.new }
    {
        led_law();
        self.theory.program().lawful();
        self.candidates = Candidates::ask(alloc, self.theory.text(), time, goals)?;
        Ok(())
    }

    /// Makes the state after the events the state, in which nothing happens yet, and gives the picks. Where memory runs out all is as
    /// before.
    pub(crate) fn settle(&mut self, alloc: Global) -> Result<Items<Pick>, AllocError>
        ensures picks { IfOk result (λ picks. picks ≡ self.old.picks) }
        ensures facts { OnOk result (self.new.facts ≡ self.old.next) }
        ensures anew { OnOk result (IsAnew self.new) }
        ensures text { self.new.text ≡ self.old.text }
        ensures err { OnErr result (self.new ≡ self.old) }
    {
        self.lawful();
        self.trial.update(alloc, &self.theory)?;
        self.start = self.trial.mark();
        self.admitted = 0;
        self.candidates.clear();
        Ok(Items::from_vec(replace(&mut self.picks, Vec::new(alloc))))
    }

    /// Lets nothing happen, and gives the picks that were made. This takes no memory.
    pub(crate) fn clear(&mut self, alloc: Global) -> Items<Pick>
        ensures picks { result ≡ self.old.picks }
        ensures text { self.new.text ≡ self.old.text }
        ensures facts { self.new.facts ≡ self.old.facts }
        ensures anew { IsAnew self.new }
    {
        self.trial.undo_to(&self.start);
        self.admitted = 0;
        self.candidates.clear();
        Items::from_vec(replace(&mut self.picks, Vec::new(alloc)))
    }
}

impl World for Round {
    ghost use Rattle.lps_cycle.specs.Round.{Setting, choice_in, setting_of};

    ghost Fixed = { Setting };

    ghost fixed = { setting_of };

    ghost choice = { choice_in };

    ghost picks = { λ round. round.picks };

    fn goals(&self) -> &[GoalId] {
        self.candidates.goals()
    }

    fn proposals(&self, goal: GoalId) -> &[Group] {
        self.candidates.proposals(goal)
    }

    fn picked(&self, goal: GoalId) -> bool {
        self.candidates.is_picked(goal)
    }

    fn admits(&mut self, alloc: Global, group: &Group) -> Result<bool, AllocError> {
        let mark = self.trial.mark();
        let denial = self
            .trial
            .try_events(alloc, &self.theory, group.atoms.as_slice())?;
        self.trial.undo_to(&mark);
        self.lawful();
        Ok(denial.is_none())
    }

    fn take(&mut self, alloc: Global, goal: GoalId, group: &Group) -> Result<(), AllocError> {
        let pick = Pick {
            goal: goal.0,
            group: copy_group(alloc, group)?,
        };
        self.picks.push(pick)?;
        match self
            .trial
            .try_events(alloc, &self.theory, group.atoms.as_slice())
        {
            Ok(_) => {
                self.candidates.pick(goal);
                Ok(())
            }
            Err(error) => {
                let _ = self.picks.pop();
                Err(error)
            }
        }
    }
}
