//! The steps that are made at one time.
ghost use Rattle.std.specs.Prelude.{◌≡◌, Contains, OnOk, length, map};
ghost use Rattle.std.specs.List.{AllByRecursion};
ghost use Rattle.lps_facts.specs.Facts.{members};
ghost use Rattle.lps_model.specs.Clauses.{clauses};
ghost use Rattle.lps_seq.specs.Leads.{Leads, LeadsBehind, LeadsByMeeting, LeadsByRow, LeadsWithout, StaysReady};
ghost use Rattle.lps_meeting.specs.Stages.{IsFirst, IsReadyStage};
ghost use Rattle.lps_residual.specs.Putting.{value_at, when_at};
ghost use Rattle.lps_meeting.specs.Steps.{AreGroundAtoms, AreTimesWhenMet, AreWays, IsDue, IsFresh, limits_with, stage_behind};
ghost use Rattle.lps_windows.specs.Bounds.{IsShort};

use crate::found::Found;
use lps_meaning::{LeftItem, When};
use lps_meeting::{Moment, Stage, Ways, met, times_when_met, values_by, ways_to_meet};
use lps_residual::{can_come_true, in_numbers};
use lps_terms::{Term, Values};
use lps_unify::Bindings;
use std::alloc::AllocError;

/// Adds all that steps at this time lead to from a stage. The bindings are as before on every way out.
#[cycle(steps)]
pub(crate) fn go_on(
    moment: &Moment<'_>,
    stage: Stage,
    bindings: &mut Bindings,
    found: &mut Found,
) -> Result<(), AllocError>
    requires facts { AreGroundAtoms (members moment.now.facts.now) }
    requires events { AreGroundAtoms moment.now.events.now }
    requires fresh { IsFresh moment.now.variables bindings.now }
    requires stage { IsReadyStage moment.now stage }
    ensures found { OnOk result (Leads moment.now stage found.old found.new) }
    ensures ready { OnOk result (StaysReady moment.now found.old found.new) }
    ensures same { bindings.new ≡ bindings.old }
{
    match stage.node.rest.get(0) {
        None => end(moment, stage, found),
        Some(first) => {
            meet(moment, &stage, &first.item, bindings, found)?;
            wait(moment, &stage, found)
        }
    }
}

/// Adds what steps at this time lead to once the first item is met.
#[cycle(steps)]
fn meet(
    moment: &Moment<'_>,
    stage: &Stage,
    item: &LeftItem,
    bindings: &mut Bindings,
    found: &mut Found,
) -> Result<(), AllocError>
    requires facts { AreGroundAtoms (members moment.now.facts.now) }
    requires events { AreGroundAtoms moment.now.events.now }
    requires fresh { IsFresh moment.now.variables bindings.now }
    requires stage { IsReadyStage moment.now stage.now }
    requires first { IsFirst stage.now item.now }
    ensures found { OnOk result (LeadsByMeeting moment.now stage.now found.old found.new) }
    ensures ready { OnOk result (StaysReady moment.now found.old found.new) }
    ensures same { bindings.new ≡ bindings.old }
{
    moment.program.lawful();
    match times_when_met(moment.alloc, moment.unknowns, stage, item, moment.time)? {
        None => Ok(()),
        Some(times) => {
            let ways = ways_to_meet(moment, item, bindings)?;
            meet_each(
                moment,
                stage,
                item,
                &ways,
                times.as_slice(),
                bindings,
                found,
            )
        }
    }
}

/// The same by each of the ways to meet it.
#[cycle(steps)]
fn meet_each(
    moment: &Moment<'_>,
    stage: &Stage,
    item: &LeftItem,
    ways: &Ways,
    times: &[When],
    bindings: &mut Bindings,
    found: &mut Found,
) -> Result<(), AllocError>
    requires facts { AreGroundAtoms (members moment.now.facts.now) }
    requires events { AreGroundAtoms moment.now.events.now }
    requires fresh { IsFresh moment.now.variables bindings.now }
    requires stage { IsReadyStage moment.now stage.now }
    requires first { IsFirst stage.now item.now }
    requires due { IsDue stage.now moment.now.time item.now }
    requires times { AreTimesWhenMet moment.now.unknowns moment.now.time item.now times.now }
    requires ways { AreWays (clauses moment.now.program.now) (members moment.now.facts.now) moment.now.events.now moment.now.variables item.now ways.now }
    ensures found { OnOk result (LeadsByMeeting moment.now stage.now found.old found.new) }
    ensures ready { OnOk result (StaysReady moment.now found.old found.new) }
    ensures same { bindings.new ≡ bindings.old }
{
    moment.program.lawful();
    for row in ways.rows.as_slice() {
        meet_by(moment, stage, item, ways, row, times, bindings, found)?;
    }
    Ok(())
}

/// The same by one of the ways to meet it.
#[cycle(steps)]
fn meet_by(
    moment: &Moment<'_>,
    stage: &Stage,
    item: &LeftItem,
    ways: &Ways,
    row: &Values,
    times: &[When],
    bindings: &mut Bindings,
    found: &mut Found,
) -> Result<(), AllocError>
    requires facts { AreGroundAtoms (members moment.now.facts.now) }
    requires events { AreGroundAtoms moment.now.events.now }
    requires fresh { IsFresh moment.now.variables bindings.now }
    requires stage { IsReadyStage moment.now stage.now }
    requires first { IsFirst stage.now item.now }
    requires times { AreTimesWhenMet moment.now.unknowns moment.now.time item.now times.now }
    requires ways { AreWays (clauses moment.now.program.now) (members moment.now.facts.now) moment.now.events.now moment.now.variables item.now ways.now }
    requires row { Contains (map (λ v. v.0) ways.now.rows.items) row.now.0 }
    ensures found { OnOk result (LeadsByRow moment.now stage.now item.now ways.now.terms row.now.0 (when_at times.now) found.old found.new) }
    ensures ready { OnOk result (StaysReady moment.now found.old found.new) }
    ensures same { bindings.new ≡ bindings.old }
{
    match values_by(moment, ways.terms.as_slice(), row.0.as_slice(), bindings)? {
        None => Ok(()),
        Some(values) => {
            go_on_with(
                moment,
                stage,
                item,
                values.as_slice(),
                times,
                bindings,
                found,
            )
        }
    }
}

/// The same where it is met with these values and times.
#[cycle(steps)]
fn go_on_with(
    moment: &Moment<'_>,
    stage: &Stage,
    item: &LeftItem,
    values: &[Term],
    times: &[When],
    bindings: &mut Bindings,
    found: &mut Found,
) -> Result<(), AllocError>
    requires facts { AreGroundAtoms (members moment.now.facts.now) }
    requires events { AreGroundAtoms moment.now.events.now }
    requires fresh { IsFresh moment.now.variables bindings.now }
    requires first { IsFirst stage.now item.now }
    requires short { AllByRecursion IsShort (limits_with stage.now (when_at times.now)) }
    requires stage { IsReadyStage moment.now (stage_behind stage.now moment.now.time (value_at values.now) (when_at times.now) item.now) }
    ensures found { OnOk result (LeadsBehind moment.now stage.now item.now (value_at values.now) (when_at times.now) found.old found.new) }
    ensures ready { OnOk result (StaysReady moment.now found.old found.new) }
    ensures same { bindings.new ≡ bindings.old }
{
    match met(moment, stage, item, values, times)? {
        None => Ok(()),
        Some(next) => go_on(moment, next, bindings, found),
    }
}

/// Adds what is left where it can come true after now.
fn wait(moment: &Moment<'_>, stage: &Stage, found: &mut Found) -> Result<(), AllocError>
    requires { IsReadyStage moment.now stage.now }
    ensures found { OnOk result (LeadsWithout moment.now stage.now found.old found.new) }
    ensures ready { OnOk result (StaysReady moment.now found.old found.new) }
{
    let alloc = moment.alloc;
    let left = in_numbers(alloc, &stage.node)?;
    let text = moment.program.text();
    if can_come_true(alloc, text, &left.node, left.unknowns, moment.time)? {
        found.add_node(left.node)?;
    }
    Ok(())
}

/// Adds what is carried where nothing is left and the last step ended now.
fn end(moment: &Moment<'_>, stage: Stage, found: &mut Found) -> Result<(), AllocError>
    requires stage { IsReadyStage moment.now stage }
    requires whole { length stage.node.rest ≡ 0 }
    ensures found { OnOk result (Leads moment.now stage found.old found.new) }
    ensures ready { OnOk result (StaysReady moment.now found.old found.new) }
{
    let before = stage.before;
    let node = stage.node;
    if before == moment.time {
        found.add_ended(node.carry)?;
    }
    Ok(())
}
