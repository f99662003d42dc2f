//! A sequence at a time.
ghost use Rattle.std.specs.Prelude.{◌≡◌, ◌⊎◌, ◌≤◌, suc, IfOk};
ghost use Rattle.std.specs.List.{AllByRecursion};
ghost use Rattle.lps_facts.specs.Facts.{members};
ghost use Rattle.lps_unify.specs.Bindings.{count_of};
ghost use Rattle.lps_solve.specs.Found.{IsLonger};
ghost use Rattle.lps_seq.specs.Leads.{CanBeStepped, IsAllLed, IsAllLedFrom};
ghost use Rattle.lps_residual.specs.Moments.{IsReady};
ghost use Rattle.lps_meeting.specs.Stages.{IsReadyStage};
ghost use Rattle.lps_meeting.specs.Steps.{AreGroundAtoms};

use crate::found::Found;
use crate::stepped::Stepped;
use crate::steps::go_on;
use lps_facts::Facts;
use lps_meaning::Node;
use lps_meeting::{Moment, Stage};
use lps_residual::in_numbers;
use lps_solve::Program;
use lps_terms::Atom;
use lps_unify::Bindings;
use std::alloc::{AllocError, Global};

/// All that steps at a time lead to from a node, where no step ended later than `before`. The bindings have no variables, and are as
/// before on every way out.
pub(crate) fn run(
    alloc: Global,
    program: &Program,
    node: &Node,
    before: u64,
    time: u64,
    facts: &Facts,
    events: &[Atom],
    bindings: &mut Bindings,
) -> Result<Stepped, AllocError>
    requires facts { AreGroundAtoms (members facts.now) }
    requires events { AreGroundAtoms events.now }
    requires none { count_of bindings.now ≡ 0 }
    requires node { CanBeStepped program.now node.now }
    requires before { (before ≡ time) ⊎ (suc before ≡ time) }
    requires early { time ≤ 1000000 }
    ensures stepped { IfOk result (λ stepped. IsAllLedFrom program.now node.now before time (members facts.now) events.now stepped) }
    ensures ready { IfOk result (λ stepped. AllByRecursion (IsReady program.now) stepped.nodes.items) }
    ensures same { bindings.new ≡ bindings.old }
{
    let left = in_numbers(alloc, node)?;
    let moment = Moment {
        alloc,
        program,
        facts,
        events,
        time,
        variables: number(left.variables)?,
        unknowns: number(left.unknowns)?,
    };
    let stage = Stage {
        node: left.node,
        before,
        joins: false,
    };
    run_stage(&moment, stage, bindings)
}

/// The count as a number of variables. An error comes where it is none.
fn number(count: usize) -> Result<u32, AllocError>
    ensures { IfOk result (λ number. number ≡ count) }
{
    match u32::try_from(count) {
        Ok(number) => Ok(number),
        Err(_) => Err(AllocError),
    }
}

/// All that steps at this time lead to from a stage. The bindings have no variables, and are as before on every way out.
fn run_stage(
    moment: &Moment<'_>,
    stage: Stage,
    bindings: &mut Bindings,
) -> Result<Stepped, AllocError>
    requires facts { AreGroundAtoms (members moment.now.facts.now) }
    requires events { AreGroundAtoms moment.now.events.now }
    requires none { count_of bindings.now ≡ 0 }
    requires stage { IsReadyStage moment.now stage }
    ensures stepped { IfOk result (λ stepped. IsAllLed moment.now stage stepped) }
    ensures ready { IfOk result (λ stepped. AllByRecursion (IsReady moment.now.program.now) stepped.nodes.items) }
    ensures same { bindings.new ≡ bindings.old }
{
    let mark = bindings.mark();
    let stepped = run_with(moment, stage, bindings);
    bindings.undo_to(&mark);
    stepped
}

/// The same, with the variables of the stage added to the bindings.
fn run_with(
    moment: &Moment<'_>,
    stage: Stage,
    bindings: &mut Bindings,
) -> Result<Stepped, AllocError>
    requires facts { AreGroundAtoms (members moment.now.facts.now) }
    requires events { AreGroundAtoms moment.now.events.now }
    requires none { count_of bindings.now ≡ 0 }
    requires stage { IsReadyStage moment.now stage }
    ensures stepped { IfOk result (λ stepped. IsAllLed moment.now stage stepped) }
    ensures ready { IfOk result (λ stepped. AllByRecursion (IsReady moment.now.program.now) stepped.nodes.items) }
    ensures longer { IsLonger bindings.old bindings.new }
{
    bindings.lawful();
    bindings.extend(moment.variables)?;
    let mut found = Found::new(moment.alloc);
    go_on(moment, stage, bindings, &mut found)?;
    found.stepped(moment.alloc)
}
