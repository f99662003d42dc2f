//! What lies in a bucket.
ghost use Rattle.std.specs.Prelude.{◌≡◌, ◌<◌, ◌↔◌, IsTrue, MatchOption, OnErr, OnOk, Contains, Some, map};
ghost use Rattle.lps_antecedents.specs.Slots.{IsAdded, IsHeldAt, held_of, left_settled, switched};

use crate::held::Held;
use lps_residual::are_same;
use std::alloc::AllocError;

/// One that waits, or that waited before the last cycle, or both.
#[derive(Drop)]
pub(crate) struct Slot {
    pub held: Held,
    /// Whether it waited before the last cycle.
    pub waited: bool,
    /// Whether it waits now.
    pub waits: bool,
}

/// Switches those that waited before on, or off. All others are off then.
pub(crate) fn switch(slots: &mut Vec<Slot>, on: bool)
    ensures { slots.new.items ≡ map (switched on) slots.old.items }
{
    for place in 0..slots.len() {
        let slot = &mut slots[place];
        slot.waits = on & slot.waited;
    }
}

/// From now on those that wait are those that waited before. What does not wait goes.
pub(crate) fn settle(slots: &mut Vec<Slot>)
    ensures { slots.new.items ≡ left_settled slots.old.items }
{
    slots.retain_mut(|slot| {
        slot.waited = slot.waits;
        slot.waits
    });
}

/// One more waits: where it lies here already, it is switched on.
pub(crate) fn add(slots: &mut Vec<Slot>, held: Held) -> Result<(), AllocError>
    ensures added { OnOk result (IsAdded held slots.old.items slots.new.items) }
    ensures err { OnErr result (slots.new.items ≡ slots.old.items) }
{
    match place_of(slots.as_slice(), &held) {
        Some(place) => slots[place].waits = true,
        None => slots.push(Slot {
            held,
            waited: false,
            waits: true,
        })?,
    }
    Ok(())
}

/// Where one lies.
fn place_of(slots: &[Slot], held: &Held) -> Option<usize>
    ensures { MatchOption result (Contains (map held_of slots.now) held.now → ⊥) (λ place. IsHeldAt slots.now place held.now) }
{
    for place in 0..slots.len() {
        if is_same(held, &slots[place].held) {
            return Some(place);
        }
    }
    None
}

fn is_same(one: &Held, other: &Held) -> bool
    ensures { IsTrue result ↔ (one.now ≡ other.now) }
{
    one.rule == other.rule && are_same(&one.node, &other.node)
}
