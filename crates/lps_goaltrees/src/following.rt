//! What is kept of a goal at a time: what its alternatives are entered with, and what its nodes lead to in a cycle.
ghost use Rattle.std.specs.Prelude.{◌≡◌, ◌≤◌, ◌<◌, IfOk, OnOk, Contains};
ghost use Rattle.std.specs.List.{AllZip, filter_map};
ghost use Rattle.lps_terms.specs.declared.atom.Atom.{Atom as Fluent};
ghost use Rattle.lps_facts.specs.Facts.{members};
ghost use Rattle.lps_residual.specs.Moments.{IsReady};
ghost use Rattle.lps_residual.specs.Waking.{IsWake};
ghost use Rattle.lps_solve.specs.Met.{AreGround};
ghost use Rattle.lps_unify.specs.Bindings.{count_of};
ghost use Rattle.lps_goaltrees.specs.Followed.{AreCallFree, IsEnterable};
ghost use Rattle.lps_goaltrees.specs.Found.{GrowsByEntering, GrowsByStepping, HasAlternative, IsAdvanced, IsBegun};
ghost use Rattle.lps_goaltrees.specs.declared.slot.Which.TheVariants.{Now};
ghost use Rattle.lps_goaltrees.specs.Pursued.{AreReadyGoals, AreReadyNodes, IsReadyGoal};
ghost use Rattle.lps_goaltrees.specs.Slots.{AreRising, goals_of, version_at};

use crate::found::Found;
use crate::goal::Goal;
use crate::rule::alternatives_of;
use crate::slot::{Slot, Which};
use crate::slots::goal_at;
use lps_facts::Facts;
use lps_meaning::{GoalId, GoalKey, Node, copy_key};
use lps_model::Accepted;
use lps_residual::{Wake, wake_of};
use lps_seq::{Start, enter, progress};
use lps_solve::Program;
use lps_terms::Atom;
use lps_unify::Bindings;
use sqlite_items::Items;
use std::alloc::{AllocError, Global};
use std::collections::BTreeSet;

/// A goal at its own time.
pub(crate) fn begun(
    alloc: Global,
    program: &Program,
    depth: u32,
    goal: GoalId,
    key: GoalKey,
    facts: &Facts,
    bindings: &mut Bindings,
) -> Result<Goal, AllocError>
    requires depth { (1 ≤ depth) × (depth ≤ 1000) }
    requires text { AreCallFree program.now }
    requires key { IsEnterable program.now key }
    requires ground { (a : Fluent) → Contains (members facts.now) a → AreGround a.args }
    requires none { count_of bindings.now ≡ 0 }
    ensures number { IfOk result (λ begun. begun.goal ≡ goal) }
    ensures key { IfOk result (λ begun. begun.key ≡ key) }
    ensures begun { IfOk result (λ begun. IsBegun program.now depth (members facts.now) begun) }
    ensures ready { IfOk result (λ begun. IsReadyGoal program.now begun) }
    ensures same { bindings.new ≡ bindings.old }
{
    let mut found = Found::new(alloc, false);
    for before in 0..alternatives_of(program.text().text(), key.rule)? {
        let number = before + 1;
        enter_alternative(
            alloc, program, depth, &key, number, facts, bindings, &mut found,
        )?;
    }
    let wakes = wakes_of(alloc, program.text(), found.nodes.as_slice())?;
    Ok(Goal {
        goal,
        key,
        nodes: Items::from_vec(found.nodes),
        wakes,
        solved: found.solved,
    })
}

/// Adds what an alternative is entered with.
fn enter_alternative(
    alloc: Global,
    program: &Program,
    depth: u32,
    key: &GoalKey,
    number: u32,
    facts: &Facts,
    bindings: &mut Bindings,
    found: &mut Found,
) -> Result<(), AllocError>
    requires depth { (1 ≤ depth) × (depth ≤ 1000) }
    requires text { AreCallFree program.now }
    requires key { IsEnterable program.now key.now }
    requires number { HasAlternative program.now key.now number }
    requires ground { (a : Fluent) → Contains (members facts.now) a → AreGround a.args }
    requires none { count_of bindings.now ≡ 0 }
    requires ready { AreReadyNodes program.now found.old.nodes.items }
    ensures grows { OnOk result (GrowsByEntering program.now depth key.now number (members facts.now) found.old found.new) }
    ensures ready { OnOk result (AreReadyNodes program.now found.new.nodes.items) }
    ensures same { bindings.new ≡ bindings.old }
{
    let start = Start::Alternative {
        key: copy_key(alloc, key)?,
        alternative: number,
    };
    let stepped = enter(alloc, program, depth, &start, key.time, facts, bindings)?;
    found.add(stepped)
}

/// Those of some goals that have these numbers, a cycle later.
pub(crate) fn advanced(
    alloc: Global,
    program: &Program,
    depth: u32,
    slots: &[Slot],
    numbers: &BTreeSet<u64>,
    time: u64,
    facts: &Facts,
    events: &[Atom],
    bindings: &mut Bindings,
) -> Result<Vec<Goal>, AllocError>
    requires depth { (1 ≤ depth) × (depth ≤ 1000) }
    requires time { (1 ≤ time) × (time ≤ 1000000) }
    requires ground { (a : Fluent) → Contains (members facts.now) a → AreGround a.args }
    requires events { (a : Fluent) → Contains events.now a → AreGround a.args }
    requires none { count_of bindings.now ≡ 0 }
    requires rising { AreRising slots.now }
    requires ready { AreReadyGoals program.now (goals_of Now slots.now) }
    ensures advanced { IfOk result (λ next. AllZip (IsAdvanced program.now depth time (members facts.now) events.now) (filter_map (version_at Now slots.now) numbers.now.keys) next.items) }
    ensures ready { IfOk result (λ next. AreReadyGoals program.now next.items) }
    ensures same { bindings.new ≡ bindings.old }
{
    let mut next = Vec::new(alloc);
    for number in numbers.iter() {
        if let Some(goal) = goal_at(slots, *number, Which::Now) {
            next.push(advance_goal(alloc, program, depth, goal, time, facts, events, bindings)?)?;
        }
    }
    Ok(next)
}

/// The same goal a cycle later.
fn advance_goal(
    alloc: Global,
    program: &Program,
    depth: u32,
    goal: &Goal,
    time: u64,
    facts: &Facts,
    events: &[Atom],
    bindings: &mut Bindings,
) -> Result<Goal, AllocError>
    requires depth { (1 ≤ depth) × (depth ≤ 1000) }
    requires time { (1 ≤ time) × (time ≤ 1000000) }
    requires ground { (a : Fluent) → Contains (members facts.now) a → AreGround a.args }
    requires events { (a : Fluent) → Contains events.now a → AreGround a.args }
    requires none { count_of bindings.now ≡ 0 }
    requires ready { AreReadyNodes program.now goal.now.nodes }
    ensures advanced { IfOk result (λ next. IsAdvanced program.now depth time (members facts.now) events.now goal.now next) }
    ensures ready { IfOk result (λ next. IsReadyGoal program.now next) }
    ensures same { bindings.new ≡ bindings.old }
{
    program.lawful();
    let mut found = Found::new(alloc, goal.solved);
    for node in goal.nodes.as_slice() {
        advance_node(
            alloc, program, depth, node, time, facts, events, bindings, &mut found,
        )?;
    }
    let wakes = wakes_of(alloc, program.text(), found.nodes.as_slice())?;
    Ok(Goal {
        goal: goal.goal,
        key: copy_key(alloc, &goal.key)?,
        nodes: Items::from_vec(found.nodes),
        wakes,
        solved: found.solved,
    })
}

/// Adds what a node leads to.
fn advance_node(
    alloc: Global,
    program: &Program,
    depth: u32,
    node: &Node,
    time: u64,
    facts: &Facts,
    events: &[Atom],
    bindings: &mut Bindings,
    found: &mut Found,
) -> Result<(), AllocError>
    requires depth { (1 ≤ depth) × (depth ≤ 1000) }
    requires time { (1 ≤ time) × (time ≤ 1000000) }
    requires node { IsReady program.now node.now }
    requires ground { (a : Fluent) → Contains (members facts.now) a → AreGround a.args }
    requires events { (a : Fluent) → Contains events.now a → AreGround a.args }
    requires none { count_of bindings.now ≡ 0 }
    requires ready { AreReadyNodes program.now found.old.nodes.items }
    ensures grows { OnOk result (GrowsByStepping program.now depth node.now time (members facts.now) events.now found.old found.new) }
    ensures ready { OnOk result (AreReadyNodes program.now found.new.nodes.items) }
    ensures same { bindings.new ≡ bindings.old }
{
    let stepped = progress(alloc, program, depth, node, time, facts, events, bindings)?;
    found.add(stepped)
}

/// What wakes each of some nodes.
fn wakes_of(alloc: Global, text: &Accepted, nodes: &[Node]) -> Result<Items<Wake>, AllocError>
    requires ready { AreReadyNodes text.now nodes.now }
    ensures { IfOk result (λ wakes. AllZip (IsWake text.now) nodes.now wakes) }
{
    let mut wakes = Vec::new(alloc);
    for node in nodes {
        wakes.push(wake_of(alloc, text, node)?)?;
    }
    Ok(Items::from_vec(wakes))
}
