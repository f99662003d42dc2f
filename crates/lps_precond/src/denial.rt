ghost use Rattle.std.specs.Prelude.{◌≡◌, ◌↔◌, ℕ, [], List, true, false, IfOk, IsTrue, Contains, length, map};
ghost use Rattle.std.specs.List.{AllByRecursion};
ghost use Rattle.lps_terms.specs.declared.atom.Atom.{Atom as Fact};
ghost use Rattle.lps_model.specs.Clauses.{clauses};
ghost use Rattle.lps_derivation.specs.Levels.{AreLevels};
ghost use Rattle.lps_facts.specs.Facts.{members};
ghost use Rattle.lps_precond.specs.Cut.{cut, cut_at, cuts};
ghost use Rattle.lps_solve.specs.Met.{AreGround};
ghost use Rattle.lps_precond.specs.Stages.{AreAllGround, AreFit, AreStarts, HasOne, IsAnswered, IsFit, IsLeft, IsNew, IsReadyStart, IsViolated, IsViolatedBy, IsViolatedByFluent, IsViolatedByStart, IsViolatedFrom, IsViolatedThrough, IsViolatedWith, firsts_of, vars_of};

use crate::cutting::{ask_derived, conditions, early_items, events, second_time, touches};
use crate::noting::{above_all, variables_of, variables_of_both};
use crate::stage::Stage;
use crate::start::{Start, starts_of};
use crate::step::{Step, Through};
use lps_facts::Facts;
use lps_model::Accepted;
use lps_solve::Program;
use lps_terms::{Cond, Item, Term, Values};
use sqlite_items::Items;
use std::alloc::{AllocError, Global};
use std::marker::Model;

/// A denial in three stages. Contracts see the conditions of each.
#[derive(Drop)]
pub(crate) struct Denial {
    /// What is to happen.
    happen: Stage,
    /// The conditions before the second of the times begins.
    front: Stage,
    /// The conditions from there on.
    back: Stage,
    /// One from each thing that is to happen.
    starts: Vec<Start>,
    /// One from each fluent that is to be true or not to be true from the cut on.
    touches: Vec<Start>,
    /// Whether a derived predicate is asked for from the cut on, which any fluent may touch.
    is_derived: bool,
}

impl Model for Denial {
    ghost use Rattle.lps_terms.specs.contracts.expr.Expr as expr;
    ghost use Rattle.lps_terms.specs.contracts.term.Term as term;
    ghost use Rattle.std.specs.Coded.{codes};
    ghost use Rattle.lps_precond.specs.Cut.{Cut};
    ghost use Rattle.lps_precond.specs.Stages.{AreStages, AreStarts, firsts_of};

    ghost Value = { Cut };

    ghost coded = { Prim.hlevel (codes, term.the_row.coded, expr.the_row.coded) };

    ghost view = { λ denial. record { happen = denial.happen.conds; front = denial.front.conds; back = denial.back.conds; touches = firsts_of denial.touches.items; is_derived = denial.is_derived } };

    ghost invariant = { λ denial. AreStages denial.happen denial.front denial.back × AreStarts denial.happen.conds denial.happen.conds denial.starts.items × AreStarts denial.happen.conds (firsts_of denial.touches.items) denial.touches.items };
}

impl Denial {
    /// The denial of these items of a text. An error comes where memory runs out or a variable's number is too high.
    pub(crate) fn new(alloc: Global, text: &Accepted, items: &[Item]) -> Result<Denial, AllocError>
        ensures { IfOk result (λ denial. denial ≡ cut text.now items.now) }
    {
        let early = early_items(second_time(items), items);
        let happen = events(alloc, items)?;
        let front = conditions(alloc, &items[..early])?;
        let back = conditions(alloc, &items[early..])?;
        Denial::of_conds(alloc, text, happen, front, back)
    }

    /// The denial of these conditions.
    fn of_conds(
        alloc: Global,
        text: &Accepted,
        happen: Items<Cond>,
        front: Items<Cond>,
        back: Items<Cond>,
    ) -> Result<Denial, AllocError>
        ensures { IfOk result (λ denial. denial ≡ cut_at text.now happen front back) }
    {
        let starts = starts_of(alloc, happen.as_slice(), happen.as_slice())?;
        let touched = touches(alloc, text, back.as_slice())?;
        let touches = starts_of(alloc, touched.as_slice(), happen.as_slice())?;
        let is_derived = ask_derived(text, back.as_slice());
        let variables = above_all(happen.as_slice(), front.as_slice(), back.as_slice())?;
        let happened = variables_of(alloc, happen.as_slice())?;
        let given = variables_of(alloc, happen.as_slice())?;
        let found = variables_of_both(alloc, happen.as_slice(), front.as_slice())?;
        let shared = variables_of_both(alloc, happen.as_slice(), front.as_slice())?;
        Ok(Denial {
            happen: Stage {
                conds: happen,
                given: Items::new(alloc),
                found: happened,
                variables,
            },
            front: Stage {
                conds: front,
                given,
                found,
                variables,
            },
            back: Stage {
                conds: back,
                given: shared,
                found: Items::new(alloc),
                variables,
            },
            starts,
            touches,
            is_derived,
        })
    }

    /// True where the denial is violated through what is new, and only where it is violated. An error comes where memory runs out.
    pub(crate) fn is_violated(
        &self,
        alloc: Global,
        program: &Program,
        step: &Step<'_>,
        through: Through<'_>,
    ) -> Result<bool, AllocError>
        requires of_text { Contains (cuts program.now) self.now }
        requires ground { AreAllGround (members step.now.happened.now) (members step.now.before.now) (members step.now.after.now) }
        requires new { IsNew (members step.now.happened.now) through }
        ensures { IfOk result (λ met. (level : List ℕ → ℕ) → AreLevels (clauses program.now) level → IsAnswered (clauses program.now) (members step.now.happened.now) (members step.now.before.now) (members step.now.after.now) level self.now (IsViolatedThrough (clauses program.now) (members step.now.happened.now) (members step.now.before.now) (members step.now.after.now) level self.now through.entry) met) }
    {
        match through {
            Through::Event(new) => self.is_violated_by_event(alloc, program, step, new),
            Through::Fluents(new) => self.is_violated_by_fluent(alloc, program, step, new),
        }
    }

    /// The same through a new event.
    fn is_violated_by_event(
        &self,
        alloc: Global,
        program: &Program,
        step: &Step<'_>,
        new: &Facts,
    ) -> Result<bool, AllocError>
        requires of_text { Contains (cuts program.now) self.now }
        requires ground { AreAllGround (members step.now.happened.now) (members step.now.before.now) (members step.now.after.now) }
        requires new { (a : Fact) → Contains (members new.now) a → Contains (members step.now.happened.now) a }
        ensures { IfOk result (λ met. (level : List ℕ → ℕ) → AreLevels (clauses program.now) level → IsAnswered (clauses program.now) (members step.now.happened.now) (members step.now.before.now) (members step.now.after.now) level self.now (IsViolatedBy (clauses program.now) (members new.now) (members step.now.happened.now) (members step.now.before.now) (members step.now.after.now) level self.now self.now.happen) met) }
    {
        program.lawful();
        if self.happen.conds.len() == 1 {
            return self.is_violated_over(alloc, program, step, new);
        }
        self.is_violated_from_one(alloc, program, step, new, self.starts.as_slice())
    }

    /// The same through a fluent that is touched.
    fn is_violated_by_fluent(
        &self,
        alloc: Global,
        program: &Program,
        step: &Step<'_>,
        new: &Facts,
    ) -> Result<bool, AllocError>
        requires of_text { Contains (cuts program.now) self.now }
        requires ground { AreAllGround (members step.now.happened.now) (members step.now.before.now) (members step.now.after.now) }
        requires new { (a : Fact) → Contains (members new.now) a → AreGround a.args }
        ensures { IfOk result (λ met. (level : List ℕ → ℕ) → AreLevels (clauses program.now) level → IsAnswered (clauses program.now) (members step.now.happened.now) (members step.now.before.now) (members step.now.after.now) level self.now (IsViolatedByFluent (clauses program.now) (members new.now) (members step.now.happened.now) (members step.now.before.now) (members step.now.after.now) level self.now) met) }
    {
        program.lawful();
        if self.is_derived {
            return self.is_violated_over(alloc, program, step, step.happened);
        }
        self.is_violated_from_one(alloc, program, step, new, self.touches.as_slice())
    }

    /// Whether there are conditions on the state after.
    pub(crate) fn is_late(&self) -> bool
        ensures late { result ≡ true → self.now.back ≡ [] → ⊥ }
        ensures none { result ≡ false → self.now.back ≡ [] }
    {
        !self.back.conds.is_empty()
    }

    /// Whether an instance violates the denial in which all that happens is among these events.
    fn is_violated_over(
        &self,
        alloc: Global,
        program: &Program,
        step: &Step<'_>,
        events: &Facts,
    ) -> Result<bool, AllocError>
        requires of_text { Contains (cuts program.now) self.now }
        requires ground { AreAllGround (members step.now.happened.now) (members step.now.before.now) (members step.now.after.now) }
        requires events { (a : Fact) → Contains (members events.now) a → AreGround a.args }
        ensures { IfOk result (λ met. (level : List ℕ → ℕ) → AreLevels (clauses program.now) level → IsTrue met ↔ IsViolated (clauses program.now) (members events.now) (members step.now.before.now) (members step.now.after.now) level self.now) }
    {
        program.lawful();
        let rows = self.happen.rows(alloc, program, events, &[])?;
        self.is_left_by_one(alloc, program, step, rows.as_slice())
    }

    /// True where the denial is violated from one of the starts, and only where it is violated.
    fn is_violated_from_one(
        &self,
        alloc: Global,
        program: &Program,
        step: &Step<'_>,
        new: &Facts,
        starts: &[Start],
    ) -> Result<bool, AllocError>
        requires of_text { Contains (cuts program.now) self.now }
        requires ground { AreAllGround (members step.now.happened.now) (members step.now.before.now) (members step.now.after.now) }
        requires new { (a : Fact) → Contains (members new.now) a → AreGround a.args }
        requires starts { AllByRecursion (λ start. IsReadyStart program.now self.now start) starts.now }
        ensures { IfOk result (λ met. (level : List ℕ → ℕ) → AreLevels (clauses program.now) level → IsAnswered (clauses program.now) (members step.now.happened.now) (members step.now.before.now) (members step.now.after.now) level self.now (IsViolatedByStart (clauses program.now) (members new.now) (members step.now.happened.now) (members step.now.before.now) (members step.now.after.now) level self.now starts.now) met) }
    {
        for start in starts {
            if self.is_violated_from(alloc, program, step, new, start)? {
                return Ok(true);
            }
        }
        Ok(false)
    }

    /// The same from this start.
    fn is_violated_from(
        &self,
        alloc: Global,
        program: &Program,
        step: &Step<'_>,
        new: &Facts,
        start: &Start,
    ) -> Result<bool, AllocError>
        requires of_text { Contains (cuts program.now) self.now }
        requires ground { AreAllGround (members step.now.happened.now) (members step.now.before.now) (members step.now.after.now) }
        requires new { (a : Fact) → Contains (members new.now) a → AreGround a.args }
        requires start { IsReadyStart program.now self.now start.now }
        ensures { IfOk result (λ met. (level : List ℕ → ℕ) → AreLevels (clauses program.now) level → IsAnswered (clauses program.now) (members step.now.happened.now) (members step.now.before.now) (members step.now.after.now) level self.now (IsViolatedFrom (clauses program.now) (members new.now) (members step.now.happened.now) (members step.now.before.now) (members step.now.after.now) level self.now start.now.first.conds) met) }
    {
        let rows = start.first.rows(alloc, program, new, &[])?;
        self.is_violated_with_one(alloc, program, step, start, rows.as_slice())
    }

    /// The same where the variables that the start shares with what is to happen have one of the rows of values.
    fn is_violated_with_one(
        &self,
        alloc: Global,
        program: &Program,
        step: &Step<'_>,
        start: &Start,
        rows: &[Values],
    ) -> Result<bool, AllocError>
        requires of_text { Contains (cuts program.now) self.now }
        requires ground { AreAllGround (members step.now.happened.now) (members step.now.before.now) (members step.now.after.now) }
        requires start { IsReadyStart program.now self.now start.now }
        requires rows { AreFit (length start.now.rest.given) (map (λ v. v.0) rows.now) }
        ensures { IfOk result (λ met. (level : List ℕ → ℕ) → AreLevels (clauses program.now) level → IsAnswered (clauses program.now) (members step.now.happened.now) (members step.now.before.now) (members step.now.after.now) level self.now (HasOne (IsViolatedWith (clauses program.now) (members step.now.happened.now) (members step.now.before.now) (members step.now.after.now) level self.now start.now.rest.given) (map (λ v. v.0) rows.now)) met) }
    {
        for row in rows {
            if self.is_violated_with(alloc, program, step, start, row.0.as_slice())? {
                return Ok(true);
            }
        }
        Ok(false)
    }

    /// The same where they have these values.
    fn is_violated_with(
        &self,
        alloc: Global,
        program: &Program,
        step: &Step<'_>,
        start: &Start,
        row: &[Term],
    ) -> Result<bool, AllocError>
        requires of_text { Contains (cuts program.now) self.now }
        requires ground { AreAllGround (members step.now.happened.now) (members step.now.before.now) (members step.now.after.now) }
        requires start { IsReadyStart program.now self.now start.now }
        requires row { IsFit (length start.now.rest.given) row.now }
        ensures { IfOk result (λ met. (level : List ℕ → ℕ) → AreLevels (clauses program.now) level → IsAnswered (clauses program.now) (members step.now.happened.now) (members step.now.before.now) (members step.now.after.now) level self.now (IsViolatedWith (clauses program.now) (members step.now.happened.now) (members step.now.before.now) (members step.now.after.now) level self.now start.now.rest.given row.now) met) }
    {
        let rows = start.rest.rows(alloc, program, step.happened, row)?;
        self.is_left_by_one(alloc, program, step, rows.as_slice())
    }

    /// Whether one of the rows of values of the variables of what is to happen leaves both sides of the cut met.
    fn is_left_by_one(
        &self,
        alloc: Global,
        program: &Program,
        step: &Step<'_>,
        rows: &[Values],
    ) -> Result<bool, AllocError>
        requires of_text { Contains (cuts program.now) self.now }
        requires ground { AreAllGround (members step.now.happened.now) (members step.now.before.now) (members step.now.after.now) }
        requires rows { AreFit (length (vars_of self.now.happen)) (map (λ v. v.0) rows.now) }
        ensures { IfOk result (λ met. (level : List ℕ → ℕ) → AreLevels (clauses program.now) level → IsTrue met ↔ HasOne (IsLeft (clauses program.now) (members step.now.before.now) (members step.now.after.now) level self.now) (map (λ v. v.0) rows.now)) }
    {
        for row in rows {
            if self.is_left_by(alloc, program, step, row.0.as_slice())? {
                return Ok(true);
            }
        }
        Ok(false)
    }

    /// Whether the row does.
    fn is_left_by(
        &self,
        alloc: Global,
        program: &Program,
        step: &Step<'_>,
        row: &[Term],
    ) -> Result<bool, AllocError>
        requires of_text { Contains (cuts program.now) self.now }
        requires ground { AreAllGround (members step.now.happened.now) (members step.now.before.now) (members step.now.after.now) }
        requires row { IsFit (length (vars_of self.now.happen)) row.now }
        ensures { IfOk result (λ met. (level : List ℕ → ℕ) → AreLevels (clauses program.now) level → IsTrue met ↔ IsLeft (clauses program.now) (members step.now.before.now) (members step.now.after.now) level self.now row.now) }
    {
        program.lawful();
        let rows = self.front.rows(alloc, program, step.before, row)?;
        if !self.is_late() {
            return Ok(!rows.is_empty());
        }
        self.back
            .is_met_by_one(alloc, program, step.after, rows.as_slice())
    }
}
