//! A text that is read and accepted, and what happens to its initial facts.
ghost use Rattle.std.specs.Prelude.{◌≡◌, [], true, IfOk, IsTrue};
ghost use Rattle.lps_facts.specs.Facts.{members, with_facts};
ghost use Rattle.lps_causal.specs.Names.{AreEvents, AreFluents, IsEvent, IsFluent};
ghost use Rattle.lps_trial.specs.Trial.{IsTrial};

use lps_causal::CausalLaws;
use lps_facts::Facts;
use lps_model::Accepted;
use lps_solve::{Program, are_ground};
use lps_terms::{Atom, Body, Effects, Kind, Text};
use lps_tests_written::accepted_of;
use lps_trial::{Theory, Trial};
use std::alloc::{AllocError, Global};
use std::test::Fail;

/// The program of a text.
pub fn program_of(alloc: Global, text: &str) -> Result<Box<Program>, Fail> {
    let accepted = accepted_of(alloc, text)?;
    Ok(Box::new(alloc, Program::new(alloc, accepted)?)?)
}

/// What a text says that is the same in all cycles.
pub fn theory_of(alloc: Global, text: &str) -> Result<Box<Theory>, Fail> {
    let accepted = accepted_of(alloc, text)?;
    Ok(Box::new(alloc, Theory::new(alloc, accepted)?)?)
}

/// The facts that a text says hold initially.
pub fn initial_facts(alloc: Global, text: &Text) -> Result<Facts, AllocError> {
    let mut facts = Facts::new(alloc);
    for statement in text.statements.as_slice() {
        if let Body::Initially(atoms) = &statement.body {
            facts.insert_all(atoms.as_slice())?;
        }
    }
    Ok(facts)
}

fn is_fluent(text: &Accepted, atom: &Atom) -> bool
    ensures { IsTrue result → IsFluent text.now atom.now }
{
    match text.kind(&atom.name) {
        Some(Kind::Fluent) => are_ground(atom.args.as_slice()),
        _ => false,
    }
}

fn is_event(text: &Accepted, atom: &Atom) -> bool
    ensures { IsTrue result → IsEvent text.now atom.now }
{
    match text.kind(&atom.name) {
        Some(Kind::Event) => are_ground(atom.args.as_slice()),
        Some(Kind::Action) => are_ground(atom.args.as_slice()),
        _ => false,
    }
}

fn are_fluents(text: &Accepted, atoms: &[Atom]) -> bool
    ensures { IsTrue result → AreFluents text.now atoms.now }
{
    for atom in atoms {
        if !is_fluent(text, atom) {
            return false;
        }
    }
    true
}

fn are_events(text: &Accepted, atoms: &[Atom]) -> bool
    ensures { IsTrue result → AreEvents text.now atoms.now }
{
    for atom in atoms {
        if !is_event(text, atom) {
            return false;
        }
    }
    true
}

/// The effects of these events.
fn effects_of(
    alloc: Global,
    program: &Program,
    facts: &Facts,
    events: &[Atom],
) -> Result<Effects, AllocError>
    requires state { AreFluents program.now (members facts.now) }
    requires events { AreEvents program.now events.now }
{
    let laws = CausalLaws::new(alloc, program.text().text())?;
    laws.effects(alloc, program, facts, events)
}

/// The effects of these events in this state.
pub fn effects_in(
    alloc: Global,
    program: &Program,
    facts: &Facts,
    events: &[Atom],
) -> Result<Effects, Fail> {
    let sorted = facts.sorted(alloc)?;
    if !are_fluents(program.text(), sorted.as_slice()) || !are_events(program.text(), events) {
        return Err(Fail::from("no state or no events"));
    }
    Ok(effects_of(alloc, program, facts, events)?)
}

/// These facts.
fn facts_of(alloc: Global, atoms: &[Atom]) -> Result<Facts, AllocError>
    ensures { IfOk result (λ facts. facts ≡ with_facts true atoms.now (record { base = []; changes = [] })) }
{
    let mut facts = Facts::new(alloc);
    facts.insert_all(atoms)?;
    Ok(facts)
}

/// No events, in the state that is given twice.
fn trial_in(alloc: Global, theory: &Theory, state: Facts, next: Facts) -> Trial
    requires same { next ≡ state }
    requires state { AreFluents theory.now (members state) }
    ensures { IsTrial theory.now result }
{
    let _ = theory;
    Trial::new(alloc, state, next)
}

/// The number of the denial that these events violate, or none. The state is updated by what may happen.
fn tried(
    alloc: Global,
    theory: &Theory,
    trial: &mut Trial,
    events: &[Atom],
) -> Result<Option<u32>, AllocError>
    requires trial { IsTrial theory.now trial.now }
    requires events { AreEvents theory.now events.now }
{
    let found = trial.try_events(alloc, theory, events)?;
    trial.update(alloc, theory)?;
    Ok(found)
}

/// The number of the denial that these events violate together in the state of these facts, or none, and the facts of the next
/// state.
pub fn tried_in(
    alloc: Global,
    theory: &Theory,
    facts: &[Atom],
    events: &[Atom],
) -> Result<(Option<u32>, Vec<Atom>), Fail> {
    let state = facts_of(alloc, facts)?;
    let next = facts_of(alloc, facts)?;
    let sorted = state.sorted(alloc)?;
    if !are_fluents(theory.text(), sorted.as_slice()) || !are_events(theory.text(), events) {
        return Err(Fail::from("no state or no events"));
    }
    let mut trial = Box::new(alloc, trial_in(alloc, theory, state, next))?;
    let found = tried(alloc, theory, &mut trial, events)?;
    Ok((found, trial.state().sorted(alloc)?))
}
