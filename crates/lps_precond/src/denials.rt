ghost use Rattle.std.specs.Prelude.{◌≡◌, ◌≤◌, ◌<◌, ◌↔◌, ◌⊎◌, [], ◌∷◌, ◌++◌, ℕ, true, false, None, List, length, IfOk, OnOk, Contains};
ghost use Rattle.lps_terms.specs.declared.atom.Atom.{Atom as Fact};
ghost use Rattle.lps_model.specs.declared.trace.Trace.{Trace};
ghost use Rattle.lps_model.specs.Clauses.{clauses};
ghost use Rattle.lps_derivation.specs.Levels.{AreLevels};
ghost use Rattle.lps_facts.specs.Facts.{members};
ghost use Rattle.lps_meaning.specs.Reports.{IsState};
ghost use Rattle.lps_causal.specs.Names.{AreEvents, AreFluents};
ghost use Rattle.lps_causal.specs.Next.{IsUpdate};
ghost use Rattle.lps_precond.specs.Cut.{cuts};
ghost use Rattle.lps_precond.specs.Judged.{IsJudged, IsLeast, IsLessened, IsUpTo};
ghost use Rattle.lps_precond.specs.Stages.{AreAllGround, AreLate, AreNews, IsAt, IsNew, IsViolatedBy, IsViolatedByFluent, IsViolatedThrough, ViolateNone};

use crate::denial::Denial;
use crate::step::{Step, Through};
use lps_facts::Facts;
use lps_index::Found;
use lps_model::Accepted;
use lps_solve::Program;
use lps_terms::{Atom, Body};
use std::alloc::{AllocError, Global};
use std::marker::Model;
use std::slice;

/// The denials of a text, ready to be tried. Contracts see them in text order, each cut into what is to happen and the
/// conditions before and after the second of its times begins.
#[derive(Drop)]
pub struct Denials {
    denials: Vec<Denial>,
    /// The places of those that have conditions on the state after.
    late: Vec<usize>,
}

impl Model for Denials {
    ghost use Rattle.lps_terms.specs.contracts.expr.Expr as expr;
    ghost use Rattle.lps_terms.specs.contracts.term.Term as term;
    ghost use Rattle.lps_precond.specs.Cut.{Cut};
    ghost use Rattle.std.specs.Coded.{codes};
    ghost use Rattle.std.specs.Prelude.{◌<◌, ◌^◌, List, length};

    ghost Value = { List Cut };

    ghost coded = { Prim.hlevel (codes, term.the_row.coded, expr.the_row.coded) };

    ghost view = { λ denials. denials.denials.items };

    ghost use Rattle.lps_precond.specs.Stages.{AreLate};

    ghost invariant = { λ denials. (length denials.denials.items < 2 ^ 32) × AreLate denials.denials.items denials.late.items };
}

impl Denials {
    /// The denials of the text. An error comes where memory runs out, or where a number of a denial or a variable has no
    /// 32 bits.
    pub fn new(alloc: Global, text: &Accepted) -> Result<Denials, AllocError>
        ensures { IfOk result (λ denials. denials ≡ cuts text.now) }
    {
        let mut denials = Vec::new(alloc);
        for statement in text.text().statements.as_slice() {
            if let Body::Denial(items) = &statement.body {
                denials.push(Denial::new(alloc, text, items.as_slice())?)?;
            }
        }
        if u32::try_from(denials.len()).is_err() {
            return Err(AllocError);
        }
        let late = late_of(alloc, denials.as_slice())?;
        Ok(Denials { denials, late })
    }

    /// The least number of a denial that the events of the step violate, or none where they violate none.
    ///
    /// The set of the step has exactly its events, and those that are not new violate no denial. An error comes where memory runs
    /// out.
    pub fn least_violated(
        &self,
        alloc: Global,
        program: &Program,
        step: &Step<'_>,
    ) -> Result<Option<u32>, AllocError>
        requires denials { self.now ≡ cuts program.now }
        requires state { AreFluents program.now (members step.now.before.now) }
        requires events { AreEvents program.now step.now.events.now }
        requires happened { (a : Fact) → Contains (members step.now.happened.now) a ↔ Contains step.now.events.now a }
        requires next { IsUpdate program.now (members step.now.before.now) step.now.events.now (members step.now.after.now) }
        requires news { AreNews program.now step.now.events.now step.now.new.now (members step.now.happened.now) (members step.now.before.now) (members step.now.after.now) step.now.touched.now }
        ensures judged { IfOk result (λ found. (level : List ℕ → ℕ) → AreLevels (clauses program.now) level → (trace : Trace) → IsState program.now level trace (length trace.cycles) (members step.now.before.now) → IsJudged program.now level trace step.now.events.now found) }
        ensures allowed { IfOk result (λ found. found ≡ None → ViolateNone program.now (members step.now.happened.now) (members step.now.before.now) (members step.now.after.now)) }
    {
        program.lawful();
        self.least(alloc, program, step)
    }

    /// The same, said of the events and the states.
    fn least(
        &self,
        alloc: Global,
        program: &Program,
        step: &Step<'_>,
    ) -> Result<Option<u32>, AllocError>
        requires denials { self.now ≡ cuts program.now }
        requires ground { AreAllGround (members step.now.happened.now) (members step.now.before.now) (members step.now.after.now) }
        requires after { AreFluents program.now (members step.now.after.now) }
        requires news { AreNews program.now step.now.events.now step.now.new.now (members step.now.happened.now) (members step.now.before.now) (members step.now.after.now) step.now.touched.now }
        ensures { IfOk result (λ found. (level : List ℕ → ℕ) → AreLevels (clauses program.now) level → IsLeast (clauses program.now) (members step.now.happened.now) (members step.now.before.now) (members step.now.after.now) level self.now found) }
    {
        program.lawful();
        let concerned = self.least_concerned(alloc, program, step)?;
        if !may_turn(step) {
            return Ok(concerned);
        }
        self.least_turned(alloc, program, step, concerned)
    }

    /// The least number of those of the denials that the events violate with one of the new ones.
    fn least_concerned(
        &self,
        alloc: Global,
        program: &Program,
        step: &Step<'_>,
    ) -> Result<Option<u32>, AllocError>
        requires denials { self.now ≡ cuts program.now }
        requires ground { AreAllGround (members step.now.happened.now) (members step.now.before.now) (members step.now.after.now) }
        requires new { (a : Fact) → Contains step.now.new.now a → Contains (members step.now.happened.now) a }
        ensures { IfOk result (λ found. (level : List ℕ → ℕ) → AreLevels (clauses program.now) level → IsLessened (clauses program.now) (members step.now.happened.now) (members step.now.before.now) (members step.now.after.now) level self.now (IsAt self.now (λ denial. IsViolatedBy (clauses program.now) step.now.new.now (members step.now.happened.now) (members step.now.before.now) (members step.now.after.now) level denial denial.happen)) None found) }
    {
        program.lawful();
        let mut least = None;
        for event in step.new {
            least = self.least_by_event(alloc, program, step, event, least)?;
        }
        Ok(least)
    }

    /// The least of this number and of those of the denials that the events violate with this one.
    fn least_by_event(
        &self,
        alloc: Global,
        program: &Program,
        step: &Step<'_>,
        event: &Atom,
        least: Option<u32>,
    ) -> Result<Option<u32>, AllocError>
        requires denials { self.now ≡ cuts program.now }
        requires ground { AreAllGround (members step.now.happened.now) (members step.now.before.now) (members step.now.after.now) }
        requires event { Contains (members step.now.happened.now) event.now }
        ensures { IfOk result (λ found. (level : List ℕ → ℕ) → AreLevels (clauses program.now) level → IsLessened (clauses program.now) (members step.now.happened.now) (members step.now.before.now) (members step.now.after.now) level self.now (IsAt self.now (λ denial. IsViolatedBy (clauses program.now) (event.now ∷ []) (members step.now.happened.now) (members step.now.before.now) (members step.now.after.now) level denial denial.happen)) least found) }
    {
        program.lawful();
        let found = program.index().denials_for(event);
        if finds_none(&found) {
            return Ok(least);
        }
        let mut new = Facts::new(alloc);
        new.insert_all(slice::from_ref(event))?;
        let through = Through::Event(&new);
        let least = self.least_at(alloc, program, step, through, found.keyed, least)?;
        self.least_at(alloc, program, step, through, found.others, least)
    }

    /// The least of this number and of those of the denials that the events violate by a fluent that is touched.
    fn least_turned(
        &self,
        alloc: Global,
        program: &Program,
        step: &Step<'_>,
        least: Option<u32>,
    ) -> Result<Option<u32>, AllocError>
        requires denials { self.now ≡ cuts program.now }
        requires ground { AreAllGround (members step.now.happened.now) (members step.now.before.now) (members step.now.after.now) }
        requires touched { AreFluents program.now step.now.touched.now }
        ensures { IfOk result (λ found. (level : List ℕ → ℕ) → AreLevels (clauses program.now) level → IsLessened (clauses program.now) (members step.now.happened.now) (members step.now.before.now) (members step.now.after.now) level self.now (IsAt self.now (IsViolatedByFluent (clauses program.now) step.now.touched.now (members step.now.happened.now) (members step.now.before.now) (members step.now.after.now) level)) least found) }
    {
        program.lawful();
        let mut touched = Facts::new(alloc);
        touched.insert_all(step.touched)?;
        let through = Through::Fluents(&touched);
        self.least_at(alloc, program, step, through, self.late.as_slice(), least)
    }

    /// The least of this number and of those of the denials at the places that are violated through what is new.
    fn least_at(
        &self,
        alloc: Global,
        program: &Program,
        step: &Step<'_>,
        through: Through<'_>,
        places: &[usize],
        given: Option<u32>,
    ) -> Result<Option<u32>, AllocError>
        requires denials { self.now ≡ cuts program.now }
        requires ground { AreAllGround (members step.now.happened.now) (members step.now.before.now) (members step.now.after.now) }
        requires new { IsNew (members step.now.happened.now) through }
        requires places { (place : ℕ) → Contains places.now place → place < length self.now }
        ensures { IfOk result (λ found. (level : List ℕ → ℕ) → AreLevels (clauses program.now) level → IsLessened (clauses program.now) (members step.now.happened.now) (members step.now.before.now) (members step.now.after.now) level self.now (λ j. Contains places.now j × IsAt self.now (λ denial. IsViolatedThrough (clauses program.now) (members step.now.happened.now) (members step.now.before.now) (members step.now.after.now) level denial through.entry) j) given found) }
    {
        let mut least = given;
        for place in places {
            least = self.lesser(alloc, program, step, through, *place, least)?;
        }
        Ok(least)
    }

    /// The lesser of this number and of that of the denial at the place, where it is violated so.
    fn lesser(
        &self,
        alloc: Global,
        program: &Program,
        step: &Step<'_>,
        through: Through<'_>,
        place: usize,
        least: Option<u32>,
    ) -> Result<Option<u32>, AllocError>
        requires denials { self.now ≡ cuts program.now }
        requires ground { AreAllGround (members step.now.happened.now) (members step.now.before.now) (members step.now.after.now) }
        requires new { IsNew (members step.now.happened.now) through }
        requires place { place < length self.now }
        ensures { IfOk result (λ found. (level : List ℕ → ℕ) → AreLevels (clauses program.now) level → IsLessened (clauses program.now) (members step.now.happened.now) (members step.now.before.now) (members step.now.after.now) level self.now (λ j. (j ≡ place) × IsAt self.now (λ denial. IsViolatedThrough (clauses program.now) (members step.now.happened.now) (members step.now.before.now) (members step.now.after.now) level denial through.entry) j) least found) }
    {
        let _ = &self.denials;
        let number = place as u32 + 1;
        if is_up_to(least, number) {
            return Ok(least);
        }
        if !self.denials[place].is_violated(alloc, program, step, through)? {
            return Ok(least);
        }
        Ok(Some(number))
    }
}

/// Whether no statement is found.
fn finds_none(found: &Found<'_>) -> bool
    ensures { result ≡ true → found.now.keyed.now ++ found.now.others.now ≡ [] }
{
    found.keyed.is_empty() && found.others.is_empty()
}

/// Whether old events alone may violate a denial now: there are some, and fluents are touched.
fn may_turn(step: &Step<'_>) -> bool
    ensures { result ≡ false → (length step.now.events.now ≡ length step.now.new.now) ⊎ (step.now.touched.now ≡ []) }
{
    step.events.len() != step.new.len() && !step.touched.is_empty()
}

/// The places of the denials that have conditions on the state after.
fn late_of(alloc: Global, denials: &[Denial]) -> Result<Vec<usize>, AllocError>
    ensures { IfOk result (λ late. AreLate denials.now late.items) }
{
    let mut late = Vec::new(alloc);
    for place in 0..denials.len() {
        add_late(place, &denials[place], &mut late)?;
    }
    Ok(late)
}

/// Adds the place of the denial, where it has conditions on the state after.
fn add_late(place: usize, denial: &Denial, late: &mut Vec<usize>) -> Result<(), AllocError>
    ensures { OnOk result ((j : ℕ) → Contains late.new.items j ↔ (Contains late.old.items j ⊎ ((j ≡ place) × (denial.now.back ≡ [] → ⊥)))) }
{
    if !denial.is_late() {
        return Ok(());
    }
    late.push(place)?;
    Ok(())
}

/// Whether a number was found that is at most this one.
fn is_up_to(found: Option<u32>, number: u32) -> bool
    ensures under { result ≡ true → IsUpTo found number }
    ensures over { result ≡ false → (k : ℕ) → IsUpTo found k → number ≤ k }
{
    match found {
        Some(least) => least <= number,
        None => false,
    }
}
