//! Goals with their versions, by rising number.
ghost use Rattle.std.specs.Prelude.{◌≡◌, ◌⊎◌, ◌↔◌, ◌<◌, ℕ, List, [], IfOk, IsTrue, MatchOption, Contains, length, map, option_copied};
ghost use Rattle.std.specs.List.{HoldsAt, filter, filter_map};
ghost use Rattle.std.specs.List.Sorted.{IsStrictlySortedBy};
ghost use Rattle.std.specs.Ordering.{nat_cmp, on};
ghost use Rattle.lps_residual.specs.declared.waking.Wake.{Wake as Woken};
ghost use Rattle.lps_goaltrees.specs.declared.slot.Which.TheVariants.{Before, Now};
ghost use Rattle.lps_goaltrees.specs.declared.slot.Change.TheVariants.{Clean};
ghost use Rattle.lps_goaltrees.specs.declared.slot.Slot.{Slot as Seen};
ghost use Rattle.lps_goaltrees.specs.declared.slot.Which.{Which as Kind};
ghost use Rattle.lps_goaltrees.specs.declared.table.Table.{Table as Tabled};
ghost use Rattle.lps_goaltrees.specs.Pursued.{with_number};
ghost use Rattle.lps_goaltrees.specs.Slots.{ArePending, AreRising, IsCleaned, IsStored, IsWoken, changed_at, closing_at, goals_of, is_used, pending_goals, version, version_at, wakes_of, with_goals};

use crate::goal::Goal;
use crate::slot::{Change, Slot, Which};
use crate::table::Table;
use lps_meaning::{Closed, GoalId};
use lps_residual::Wake;
use std::alloc::{AllocError, Global};
use std::cmp::Ordering;
use std::collections::BTreeSet;

/// Where the slot with a number is.
fn place_of(slots: &[Slot], number: u64) -> Option<usize>
    requires rising { AreRising slots.now }
    ensures { MatchOption result ((slot : Seen) → Contains slots.now slot → slot.number ≡ number → ⊥) (λ place. (place < length slots.now) × HoldsAt (λ slot. slot.number ≡ number) slots.now place) }
{
    slots.binary_search_by_key(&number, |slot| slot.number).ok()
}

/// A version of the goal with a number.
pub(crate) fn goal_at(slots: &[Slot], number: u64, which: Which) -> Option<&Goal>
    requires rising { AreRising slots.now }
    ensures { option_copied result ≡ version_at which slots.now number }
{
    match place_of(slots, number) {
        Some(place) => slots[place].versions.get(which),
        None => None,
    }
}

/// Changes the goal with a number.
fn change_at(slots: &mut Vec<Slot>, number: u64, change: Change)
    requires rising { AreRising slots.old.items }
    ensures { slots.new.items ≡ map (changed_at change number) slots.old.items }
{
    if let Some(place) = place_of(slots.as_slice(), number) {
        slots[place].change(change);
    }
}

/// Keeps one version alone of each goal that has changed.
pub(crate) fn settle_all(slots: &mut Vec<Slot>, changed: &BTreeSet<u64>, which: Which)
    requires rising { AreRising slots.old.items }
    ensures rising { AreRising slots.new.items }
    ensures goals { goals_of which slots.new.items ≡ goals_of which slots.old.items }
    ensures found { (number : ℕ) → version_at which slots.new.items number ≡ version_at which slots.old.items number }
    ensures stored { (limit next : ℕ) (table : Tabled) → IsStored which limit next table changed.now.keys slots.old.items → IsStored which limit next table [] slots.new.items }
{
    for number in changed.iter() {
        change_at(slots, *number, Change::Settle(which));
    }
}

/// Puts each of some goals where its number is.
pub(crate) fn put_all(slots: &mut Vec<Slot>, goals: Vec<Goal>)
    requires rising { AreRising slots.old.items }
    ensures rising { AreRising slots.new.items }
    ensures put { slots.new.items ≡ map (with_goals goals.items) slots.old.items }
{
    for goal in goals {
        change_at(slots, goal.goal.0, Change::Put(goal));
    }
}

/// How each of the goals that have changed is closed, by rising number.
pub(crate) fn closings(
    alloc: Global,
    slots: &[Slot],
    changed: &BTreeSet<u64>,
) -> Result<Vec<(GoalId, Closed)>, AllocError>
    requires rising { AreRising slots.now }
    ensures closed { IfOk result (λ closed. closed.items ≡ filter_map (closing_at slots.now) changed.now.keys) }
    ensures sorted { IfOk result (λ closed. IsStrictlySortedBy (on (λ p. p.0.0) nat_cmp) closed.items) }
{
    let mut closed = Vec::new(alloc);
    for number in changed.iter() {
        if let Some(how) = closed_at(slots, *number) {
            closed.push((GoalId(*number), how))?;
        }
    }
    Ok(closed)
}

/// How the goal with a number is closed.
fn closed_at(slots: &[Slot], number: u64) -> Option<Closed>
    requires rising { AreRising slots.now }
    ensures { with_number (record { 0 = number }) result ≡ closing_at slots.now number }
{
    goal_at(slots, number, Which::Now)?.closed()
}

/// Drops the goals that have changed and are no longer pending.
pub(crate) fn close_all(slots: &mut Vec<Slot>, changed: &BTreeSet<u64>)
    requires rising { AreRising slots.old.items }
    ensures goals { pending_goals slots.new.items ≡ pending_goals slots.old.items }
    ensures before { goals_of Before slots.new.items ≡ goals_of Before slots.old.items }
    ensures stored { (limit next : ℕ) (table : Tabled) → IsStored Before limit next table changed.now.keys slots.old.items →
        IsStored Before limit next table changed.now.keys slots.new.items × ArePending slots.new.items }
{
    for number in changed.iter() {
        change_at(slots, *number, Change::Close);
    }
}

/// How many goals there are now.
pub(crate) fn count(slots: &[Slot]) -> usize
    ensures { result ≡ length (goals_of Now slots.now) }
{
    let mut count = 0;
    for slot in slots {
        if slot.versions.get(Which::Now).is_some() {
            count += 1;
        }
    }
    count
}

/// Cleans up what was dropped of each goal that has changed: it is no longer found by what woke it. At so many slots those are dropped that
/// have no version; the number is given at which it is time for this again.
pub(crate) fn tidy(
    slots: &mut Vec<Slot>,
    table: &mut Table,
    changed: &BTreeSet<u64>,
    most: usize,
) -> usize
    requires rising { AreRising slots.old.items }
    ensures goals { (which : Kind) → goals_of which slots.new.items ≡ goals_of which slots.old.items }
    ensures stored { (which : Kind) (limit next : ℕ) (noted : List ℕ) → IsStored which limit next table.old noted slots.old.items → IsStored which limit next table.new noted slots.new.items }
{
    clean_all(slots, table, changed);
    if slots.len() < most {
        return most;
    }
    sweep(slots);
    slots.len().saturating_mul(2).saturating_add(64)
}

/// Cleans up what was dropped of each goal that has changed.
fn clean_all(slots: &mut Vec<Slot>, table: &mut Table, changed: &BTreeSet<u64>)
    requires rising { AreRising slots.old.items }
    ensures goals { (which : Kind) → goals_of which slots.new.items ≡ goals_of which slots.old.items }
    ensures stored { (which : Kind) (limit next : ℕ) (noted : List ℕ) → IsStored which limit next table.old noted slots.old.items → IsStored which limit next table.new noted slots.new.items }
{
    for number in changed.iter() {
        clean_at(slots, table, *number);
    }
}

/// Cleans up what was dropped of the goal with a number.
fn clean_at(slots: &mut Vec<Slot>, table: &mut Table, number: u64)
    requires rising { AreRising slots.old.items }
    ensures slots { slots.new.items ≡ map (changed_at Clean number) slots.old.items }
    ensures table { IsCleaned number slots.old.items table.old table.new }
{
    if let Some(place) = place_of(slots.as_slice(), number) {
        forget_dropped(table, number, &slots[place]);
    }
    change_at(slots, number, Change::Clean);
}

/// The goal of a slot is no longer found by what woke the version that was dropped.
fn forget_dropped(table: &mut Table, number: u64, slot: &Slot)
    ensures { (w : Woken) (n : ℕ) → IsWoken table.old w n → (n ≡ number → Contains (wakes_of (version Before slot.now.versions)) w ⊎ Contains (wakes_of (version Now slot.now.versions)) w) → IsWoken table.new w n }
{
    let before = wakes_of(slot.versions.get(Which::Before));
    let now = wakes_of(slot.versions.get(Which::Now));
    forget(table, number, wakes_of(slot.dropped.as_ref()), before, now);
}

/// What wakes a goal.
fn wakes_of(goal: Option<&Goal>) -> &[Wake]
    ensures { result.now ≡ wakes_of (option_copied goal.entry) }
{
    match goal {
        Some(goal) => goal.wakes.as_slice(),
        None => &[],
    }
}

/// The goal with a number is no longer found by some wakes, but for those among others.
fn forget(table: &mut Table, number: u64, dropped: &[Wake], before: &[Wake], now: &[Wake])
    ensures { (w : Woken) (n : ℕ) → IsWoken table.old w n → (n ≡ number → Contains before.now w ⊎ Contains now.now w) → IsWoken table.new w n }
{
    for wake in dropped {
        if !has(before, wake) && !has(now, wake) {
            table.remove(wake, number);
        }
    }
}

fn has(wakes: &[Wake], wake: &Wake) -> bool
    ensures { IsTrue result ↔ Contains wakes.now wake.now }
{
    for other in wakes {
        if is_same(wake, other) {
            return true;
        }
    }
    false
}

fn is_same(wake: &Wake, other: &Wake) -> bool
    ensures { IsTrue result ↔ (wake.now ≡ other.now) }
{
    match wake.cmp(other) {
        Ordering::Equal => true,
        Ordering::Less => false,
        Ordering::Greater => false,
    }
}

/// Drops the slots that have no version.
pub(crate) fn sweep(slots: &mut Vec<Slot>)
    ensures { slots.new.items ≡ filter is_used slots.old.items }
{
    slots.retain(|slot| slot.is_used());
}
