//! Which goals a wake wakes.
ghost use Rattle.std.specs.Prelude.{◌≡◌, ◌⊎◌, ◌↔◌, ℕ, false, true, is_some, IfOk, OnOk, Contains};
ghost use Rattle.lps_residual.specs.declared.waking.Wake.{Wake as Woken};
ghost use Rattle.lps_residual.specs.Waking.{IsTouched};
ghost use Rattle.lps_goaltrees.specs.declared.goal.Goal.{Goal as Pursued};
ghost use Rattle.lps_goaltrees.specs.Slots.{IsGoalOf, IsListed, IsWoken, wake_cmp};
ghost use Rattle.std.specs.BTreeMap.{get};

use crate::goal::Goal;
use lps_residual::Wake;
use lps_terms::Atom;
use lps_watch::{Watch, copy_wake};
use std::alloc::{AllocError, Global};
use std::collections::{BTreeMap, BTreeSet};

/// The goals that each of some wakes wakes, by number.
#[derive(Drop)]
pub(crate) struct Table {
    pub wakes: Watch,
    pub goals: BTreeMap<Wake, BTreeSet<u64>>,
}

impl Table {
    pub(crate) fn new(alloc: Global) -> Table {
        Table {
            wakes: Watch::new(alloc),
            goals: BTreeMap::new(alloc),
        }
    }

    /// Notes that a wake wakes a goal. Where memory runs out, nothing is lost.
    pub(crate) fn insert(&mut self, alloc: Global, wake: &Wake, goal: u64) -> Result<(), AllocError>
        ensures added { OnOk result (IsWoken self.new wake.now goal) }
        ensures others { (w : Woken) (n : ℕ) → IsWoken self.old w n → IsWoken self.new w n }
    {
        self.wakes.insert(alloc, wake)?;
        add_goal(alloc, &mut self.goals, wake, goal)
    }

    /// Notes that a wake no longer wakes a goal. This takes no memory.
    pub(crate) fn remove(&mut self, wake: &Wake, goal: u64)
        ensures { (w : Woken) (n : ℕ) → IsWoken self.old w n → (w ≡ wake.now → n ≡ goal → ⊥) → IsWoken self.new w n }
    {
        if !remove_goal(&mut self.goals, wake, goal) {
            self.wakes.remove(wake);
        }
    }

    /// The goals with a wake that a cycle touches, which ends at this time and has these events.
    pub(crate) fn touched(
        &self,
        alloc: Global,
        time: u64,
        events: &[Atom],
    ) -> Result<BTreeSet<u64>, AllocError>
        ensures { IfOk result (λ found. (w : Woken) (n : ℕ) → IsWoken self.now w n → IsTouched w time events.now → Contains found.keys n) }
    {
        let wakes = self.wakes.touched(alloc, time, events)?;
        goals_of(alloc, &self.goals, wakes.as_slice())
    }
}

/// Adds a goal to those of a wake.
fn add_goal(
    alloc: Global,
    goals: &mut BTreeMap<Wake, BTreeSet<u64>>,
    wake: &Wake,
    goal: u64,
) -> Result<(), AllocError>
    ensures added { OnOk result (IsListed goals.new wake.now goal) }
    ensures others { (w : Woken) (n : ℕ) → IsListed goals.old w n → IsListed goals.new w n }
{
    if goals.contains_key(wake) {
        return insert_goal(goals, wake, goal);
    }
    let mut numbers = BTreeSet::new(alloc);
    numbers.insert(goal)?;
    goals.insert(copy_wake(alloc, wake)?, numbers)?;
    Ok(())
}

/// Adds a goal to those of a wake that has some.
fn insert_goal(
    goals: &mut BTreeMap<Wake, BTreeSet<u64>>,
    wake: &Wake,
    goal: u64,
) -> Result<(), AllocError>
    requires { is_some (get wake_cmp goals.now wake.now) ≡ true }
    ensures added { OnOk result (IsListed goals.new wake.now goal) }
    ensures others { (w : Woken) (n : ℕ) → IsListed goals.old w n → IsListed goals.new w n }
{
    if let Some(numbers) = goals.get_mut(wake) {
        numbers.insert(goal)?;
    }
    Ok(())
}

/// Takes a goal away from those of a wake, and tells whether others are left.
fn remove_goal(goals: &mut BTreeMap<Wake, BTreeSet<u64>>, wake: &Wake, goal: u64) -> bool
    ensures rest { (w : Woken) (n : ℕ) → IsListed goals.old w n → (w ≡ wake.now → n ≡ goal → ⊥) → IsListed goals.new w n }
    ensures none { result ≡ false → (n : ℕ) → IsListed goals.new wake.now n → ⊥ }
{
    take_goal(goals, wake, goal);
    if has_goals(goals, wake) {
        return true;
    }
    goals.remove(wake);
    false
}

fn take_goal(goals: &mut BTreeMap<Wake, BTreeSet<u64>>, wake: &Wake, goal: u64)
    ensures { (w : Woken) (n : ℕ) → IsListed goals.old w n → (w ≡ wake.now → n ≡ goal → ⊥) → IsListed goals.new w n }
{
    if let Some(numbers) = goals.get_mut(wake) {
        numbers.remove(&goal);
    }
}

fn has_goals(goals: &BTreeMap<Wake, BTreeSet<u64>>, wake: &Wake) -> bool
    ensures { result ≡ false → (n : ℕ) → IsListed goals.now wake.now n → ⊥ }
{
    match goals.get(wake) {
        Some(numbers) => !numbers.is_empty(),
        None => false,
    }
}

/// The goals of some wakes.
fn goals_of(
    alloc: Global,
    goals: &BTreeMap<Wake, BTreeSet<u64>>,
    wakes: &[Wake],
) -> Result<BTreeSet<u64>, AllocError>
    ensures { IfOk result (λ found. (w : Woken) (n : ℕ) → Contains wakes.now w → IsListed goals.now w n → Contains found.keys n) }
{
    let mut found = BTreeSet::new(alloc);
    for wake in wakes {
        add_goals(goals, wake, &mut found)?;
    }
    Ok(found)
}

/// Adds the goals of a wake.
fn add_goals(
    goals: &BTreeMap<Wake, BTreeSet<u64>>,
    wake: &Wake,
    found: &mut BTreeSet<u64>,
) -> Result<(), AllocError>
    ensures more { OnOk result ((n : ℕ) → Contains found.old.keys n → Contains found.new.keys n) }
    ensures added { OnOk result ((n : ℕ) → IsListed goals.now wake.now n → Contains found.new.keys n) }
{
    match goals.get(wake) {
        None => Ok(()),
        Some(numbers) => add_all(numbers, found),
    }
}

/// Adds all of some numbers.
fn add_all(numbers: &BTreeSet<u64>, found: &mut BTreeSet<u64>) -> Result<(), AllocError>
    ensures { OnOk result ((n : ℕ) → Contains found.new.keys n ↔ (Contains found.old.keys n ⊎ Contains numbers.now.keys n)) }
{
    for number in numbers.iter() {
        found.insert(*number)?;
    }
    Ok(())
}

/// Lets a goal be found by what wakes it. Where memory runs out, nothing is lost.
pub(crate) fn find_by(alloc: Global, table: &mut Table, goal: &Goal) -> Result<(), AllocError>
    ensures found { OnOk result (IsGoalOf table.new goal.now.goal.0 goal.now) }
    ensures others { (w : Woken) (n : ℕ) → IsWoken table.old w n → IsWoken table.new w n }
{
    for wake in goal.wakes.as_slice() {
        table.insert(alloc, wake, goal.goal.0)?;
    }
    Ok(())
}

/// Lets some goals be found by what wakes them. Where memory runs out, nothing is lost.
pub(crate) fn find_all_by(
    alloc: Global,
    table: &mut Table,
    goals: &[Goal],
) -> Result<(), AllocError>
    ensures found { OnOk result ((g : Pursued) → Contains goals.now g → IsGoalOf table.new g.goal.0 g) }
    ensures others { (w : Woken) (n : ℕ) → IsWoken table.old w n → IsWoken table.new w n }
{
    for goal in goals {
        find_by(alloc, table, goal)?;
    }
    Ok(())
}
