ghost use Rattle.std.specs.Prelude.{◌≡◌, ◌↔◌, ◌++◌, ℕ, true, Contains, IsTrue, map, take, MatchResult, IfOk};
ghost use Rattle.lps_choice.specs.Choices.{ArePicks, IsSettled, TakesGiven};

use crate::next::{next_pick, numbers};
use crate::world::World;
use lps_meaning::GoalId;
use lps_model::{Group, Pick};
use lps_terms::Atom;
use std::alloc::{AllocError, Global};

/// Whether a goal is one of some.
fn has_goal(goals: &[GoalId], goal: u64) -> bool
    ensures { IsTrue result ↔ Contains (map (λ goal. goal.0) goals.now) goal }
{
    for other in goals {
        if other.0 == goal {
            return true;
        }
    }
    false
}

/// Whether two lists have the same atoms in the same order.
fn are_same(atoms: &[Atom], others: &[Atom]) -> bool
    ensures { IsTrue result ↔ (atoms.now ≡ others.now) }
{
    atoms.cmp(others).is_eq()
}

/// Whether a group is one of some.
fn has_group(groups: &[Group], group: &Group) -> bool
    ensures { IsTrue result ↔ Contains groups.now group.now }
{
    for other in groups {
        if are_same(other.atoms.as_slice(), group.atoms.as_slice()) {
            return true;
        }
    }
    false
}

/// Whether a pick is of a pending goal and one of its proposals.
fn is_proposed<W: World>(world: &W, pick: &Pick) -> bool
    ensures { IsTrue result ↔ (Contains (W.choice (W.fixed world.now)).goals pick.now.goal × Contains ((W.choice (W.fixed world.now)).proposals pick.now.goal) pick.now.group) }
{
    if !has_goal(world.goals(), pick.goal) {
        return false;
    }
    has_group(world.proposals(GoalId(pick.goal)), &pick.group)
}

/// Makes a pick where it may be made. Answers whether it may.
fn take_given<W: World>(alloc: Global, world: &mut W, pick: &Pick) -> Result<bool, AllocError>
    ensures fixed { W.fixed world.new ≡ W.fixed world.old }
    ensures taken { MatchResult result (λ legal. TakesGiven (W.choice (W.fixed world.old)) pick.now (W.picks world.old) (W.picks world.new) legal) (λ _. W.picks world.new ≡ W.picks world.old) }
{
    if !is_proposed(world, pick) {
        return Ok(false);
    }
    if world.picked(GoalId(pick.goal)) {
        return Ok(false);
    }
    if !world.admits(alloc, &pick.group)? {
        return Ok(false);
    }
    world.take(alloc, GoalId(pick.goal), &pick.group)?;
    Ok(true)
}

/// Whether no pick is left to be made.
fn is_settled<W: World>(alloc: Global, world: &mut W) -> Result<bool, AllocError>
    ensures fixed { W.fixed world.new ≡ W.fixed world.old }
    ensures picks { W.picks world.new ≡ W.picks world.old }
    ensures settled { IfOk result (λ settled. IsTrue settled ↔ IsSettled (W.choice (W.fixed world.old)) (W.picks world.old)) }
{
    let goals = numbers(alloc, world.goals())?;
    for goal in goals.as_slice() {
        match next_pick(alloc, world, *goal)? {
            Some(_) => return Ok(false),
            None => {}
        }
    }
    Ok(true)
}

/// Makes the given picks in order, and answers whether they are legal after those that were made before: each may be made, and
/// after the last none is left. Where they are not, or memory ran out, the first of them are made.
pub fn check_picks<W: World>(
    alloc: Global,
    world: &mut W,
    picks: &[Pick],
) -> Result<bool, AllocError>
    ensures fixed { W.fixed world.new ≡ W.fixed world.old }
    ensures exact { IfOk result (λ legal. IsTrue legal ↔ (ArePicks (W.choice (W.fixed world.old)) (W.picks world.old) picks.now
        × IsSettled (W.choice (W.fixed world.old)) (W.picks world.old ++ picks.now))) }
    ensures all { IfOk result (λ legal. legal ≡ true → W.picks world.new ≡ W.picks world.old ++ picks.now) }
    ensures front { (count : ℕ) × (W.picks world.new ≡ W.picks world.old ++ take count picks.now) }
{
    for pick in picks {
        if !take_given(alloc, world, pick)? {
            return Ok(false);
        }
    }
    is_settled(alloc, world)
}
