//! What waits after a cycle.
ghost use Rattle.std.specs.Prelude.{◌≡◌, ◌≤◌, ◌↔◌, ◌⊎◌, [], ◌∷◌, IfOk, IsTrue, OnOk, Contains, map};
ghost use Rattle.std.specs.List.Sorted.{IsStrictlySortedBy};
ghost use Rattle.std.specs.Map.{keys_of};
ghost use Rattle.lps_terms.specs.declared.atom.Atom.{Atom as Fluent};
ghost use Rattle.lps_facts.specs.Facts.{members};
ghost use Rattle.lps_meaning.specs.declared.node.Node.{Node as Shape};
ghost use Rattle.lps_residual.specs.Moments.{IsReady};
ghost use Rattle.lps_watch.specs.Orders.{wake_cmp};
ghost use Rattle.lps_solve.specs.Met.{AreGround};
ghost use Rattle.lps_unify.specs.Bindings.{count_of};
ghost use Rattle.lps_antecedents.specs.declared.held.Held.{Held as One};
ghost use Rattle.lps_antecedents.specs.Advancing.{AreOff, AreStepped, IsGatheredFrom, IsSteppedIn};
ghost use Rattle.lps_antecedents.specs.Buckets.{AreReadyIn, ChangesOnly, IsSoundOf, kept, slots_of, waited, waiting};
ghost use Rattle.lps_antecedents.specs.Gathered.{AreOnce};
ghost use Rattle.lps_antecedents.specs.Slots.{before_in, held_of};
ghost use Rattle.lps_antecedents.specs.Waiting.{StandAfter};

use crate::buckets::{Buckets, put_all, switch_all};
use crate::gathered::Gathered;
use crate::slot::Slot;
use lps_facts::Facts;
use lps_meaning::{GoalKey, Node};
use lps_nodes::progress_law;
use lps_residual::{Wake, are_same, wake_law};
use lps_seq::{progress, rest_law};
use lps_solve::Program;
use lps_terms::Atom;
use lps_unify::Bindings;
use std::alloc::{AllocError, Global};
use std::collections::BTreeMap;

/// How deep calls of macros may nest: antecedents have none.
pub(crate) const DEPTH: u32 = 1;

/// Carries what waits over the cycle that ends at this time, and gives the keys of the antecedents that come true in it. What the cycle
/// does not touch stays as it is. Where memory runs out, a part of it may be done, and `restore` takes it back.
pub(crate) fn advance(
    alloc: Global,
    program: &Program,
    buckets: &mut Buckets,
    time: u64,
    facts: &Facts,
    events: &[Atom],
    bindings: &mut Bindings,
) -> Result<Vec<GoalKey>, AllocError>
    requires time { (1 ≤ time) × (time ≤ 1000000) }
    requires sound { IsSoundOf buckets.old }
    requires settled { buckets.old.changed.items ≡ [] }
    requires ready { AreReadyIn program.now (kept (slots_of buckets.old.by_wake)) }
    requires ground { (a : Fluent) → Contains (members facts.now) a → AreGround a.args }
    requires events { (a : Fluent) → Contains events.now a → AreGround a.args }
    requires none { count_of bindings.now ≡ 0 }
    ensures stands { IfOk result (λ keys. StandAfter program.now time (members facts.now) events.now (waiting (slots_of buckets.old.by_wake)) (waiting (slots_of buckets.new.by_wake)) keys.items) }
    ensures waited { waited (slots_of buckets.new.by_wake) ≡ waiting (slots_of buckets.old.by_wake) }
    ensures sound { IsSoundOf buckets.new }
    ensures ready { AreReadyIn program.now (kept (slots_of buckets.new.by_wake)) }
    ensures same { bindings.new ≡ bindings.old }
{
    program.lawful();
    progress_law();
    rest_law();
    wake_law();
    buckets.changed = buckets.watch.touched(alloc, time, events)?;
    let Buckets {
        by_wake,
        changed,
        ..
    } = buckets;
    switch_all(by_wake, changed.as_slice(), false);
    let touched = changed.as_slice();
    let gathered = advanced(
        alloc, program, by_wake, touched, time, facts, events, bindings,
    )?;
    let (all, keys) = gathered.into_parts(alloc)?;
    put_all(alloc, program, buckets, all)?;
    Ok(keys)
}

/// What those in the buckets of these wakes come to in the cycle that ends at this time. Those that go on as they are wait on where they
/// lie, and the others are gathered.
fn advanced(
    alloc: Global,
    program: &Program,
    by_wake: &mut BTreeMap<Wake, Vec<Slot>>,
    wakes: &[Wake],
    time: u64,
    facts: &Facts,
    events: &[Atom],
    bindings: &mut Bindings,
) -> Result<Gathered, AllocError>
    requires time { (1 ≤ time) × (time ≤ 1000000) }
    requires once { AreOnce wakes.now }
    requires ordered { IsStrictlySortedBy wake_cmp (keys_of (slots_of by_wake.old)) }
    requires off { AreOff wakes.now (slots_of by_wake.old) }
    requires ready { AreReadyIn program.now (kept (slots_of by_wake.old)) }
    requires ground { (a : Fluent) → Contains (members facts.now) a → AreGround a.args }
    requires events { (a : Fluent) → Contains events.now a → AreGround a.args }
    requires none { count_of bindings.now ≡ 0 }
    ensures gathered { IfOk result (λ g. IsGatheredFrom program.now time (members facts.now) events.now wakes.now (slots_of by_wake.old) (slots_of by_wake.new) g) }
    ensures ready { IfOk result (λ g. (h : One) → Contains g.held.items h → IsReady program.now h.node) }
    ensures before { ChangesOnly wakes.now (slots_of by_wake.old) (slots_of by_wake.new) }
    ensures same { bindings.new ≡ bindings.old }
{
    let mut gathered = Gathered::new(alloc);
    for wake in wakes {
        step_bucket(
            alloc,
            program,
            by_wake,
            wake,
            time,
            facts,
            events,
            bindings,
            &mut gathered,
        )?;
    }
    Ok(gathered)
}

/// Adds what those in the bucket of a wake come to.
fn step_bucket(
    alloc: Global,
    program: &Program,
    by_wake: &mut BTreeMap<Wake, Vec<Slot>>,
    wake: &Wake,
    time: u64,
    facts: &Facts,
    events: &[Atom],
    bindings: &mut Bindings,
    gathered: &mut Gathered,
) -> Result<(), AllocError>
    requires time { (1 ≤ time) × (time ≤ 1000000) }
    requires ordered { IsStrictlySortedBy wake_cmp (keys_of (slots_of by_wake.old)) }
    requires ready { AreReadyIn program.now (kept (slots_of by_wake.old)) }
    requires ground { (a : Fluent) → Contains (members facts.now) a → AreGround a.args }
    requires events { (a : Fluent) → Contains events.now a → AreGround a.args }
    requires none { count_of bindings.now ≡ 0 }
    ensures gathered { OnOk result (IsSteppedIn program.now time (members facts.now) events.now wake.now (slots_of by_wake.old) (slots_of by_wake.new) gathered.old gathered.new) }
    ensures ready { OnOk result (((h : One) → Contains gathered.old.held.items h → IsReady program.now h.node) → (h : One) → Contains gathered.new.held.items h → IsReady program.now h.node) }
    ensures before { ChangesOnly (wake.now ∷ []) (slots_of by_wake.old) (slots_of by_wake.new) }
    ensures same { bindings.new ≡ bindings.old }
{
    if let Some(slots) = by_wake.get_mut(wake) {
        step_all(
            alloc, program, slots, time, facts, events, bindings, gathered,
        )?;
    }
    Ok(())
}

/// Adds what those that lie here come to. Those that go on as they are wait on where they lie.
fn step_all(
    alloc: Global,
    program: &Program,
    slots: &mut Vec<Slot>,
    time: u64,
    facts: &Facts,
    events: &[Atom],
    bindings: &mut Bindings,
    gathered: &mut Gathered,
) -> Result<(), AllocError>
    requires time { (1 ≤ time) × (time ≤ 1000000) }
    requires ready { (h : One) → Contains (map held_of slots.old.items) h → IsReady program.now h.node }
    requires ground { (a : Fluent) → Contains (members facts.now) a → AreGround a.args }
    requires events { (a : Fluent) → Contains events.now a → AreGround a.args }
    requires none { count_of bindings.now ≡ 0 }
    ensures gathered { OnOk result (AreStepped program.now time (members facts.now) events.now slots.old.items slots.new.items gathered.old gathered.new) }
    ensures ready { OnOk result (((h : One) → Contains gathered.old.held.items h → IsReady program.now h.node) → (h : One) → Contains gathered.new.held.items h → IsReady program.now h.node) }
    ensures before { before_in slots.new.items ≡ before_in slots.old.items }
    ensures same { bindings.new ≡ bindings.old }
{
    program.lawful();
    progress_law();
    for place in 0..slots.len() {
        let one = &slots[place].held;
        let mut stepped = progress(
            alloc, program, DEPTH, &one.node, time, facts, events, bindings,
        )?;
        let stays = take_out(&mut stepped.nodes, &one.node);
        gathered.add(alloc, one.rule, time, stepped)?;
        slots[place].waits = stays;
    }
    Ok(())
}

/// Takes a node out, if it is among these.
fn take_out(nodes: &mut Vec<Node>, node: &Node) -> bool
    ensures { (x : Shape) → Contains nodes.old.items x ↔ (Contains nodes.new.items x ⊎ (IsTrue result × (x ≡ node.now))) }
{
    for place in 0..nodes.len() {
        if are_same(&nodes[place], node) {
            nodes.swap_remove(place);
            return true;
        }
    }
    false
}
