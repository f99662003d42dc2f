//! The group that a goal gets next.
ghost use Rattle.std.specs.Prelude.{◌≡◌, ◌<◌, Contains, length, map, slice_index_or, IfOk};
ghost use Rattle.lps_choice.specs.Passes.{IsFirstFound, IsNext};

use crate::copy::copy_group;
use crate::world::World;
use lps_meaning::GoalId;
use lps_model::Group;
use std::alloc::{AllocError, Global};

/// The numbers of goals.
pub fn numbers(alloc: Global, goals: &[GoalId]) -> Result<Vec<u64>, AllocError>
    ensures { IfOk result (λ numbers. numbers.items ≡ map (λ goal. goal.0) goals.now) }
{
    goals.iter().map(|goal| goal.0).collect(alloc)
}

/// A copy of the proposal of a pending goal at a place.
fn proposal<W: World>(
    alloc: Global,
    world: &W,
    goal: u64,
    place: usize,
) -> Result<Group, AllocError>
    requires pending { Contains (W.choice (W.fixed world.now)).goals goal }
    requires within { place < length ((W.choice (W.fixed world.now)).proposals goal) }
    ensures { IfOk result (λ group. slice_index_or ((W.choice (W.fixed world.now)).proposals goal) place group ≡ group) }
{
    copy_group(alloc, &world.proposals(GoalId(goal))[place])
}

/// The first proposal of a pending goal that is admitted, or `None` where each is refused.
fn first_admitted<W: World>(
    alloc: Global,
    world: &mut W,
    goal: u64,
) -> Result<Option<Group>, AllocError>
    requires { Contains (W.choice (W.fixed world.old)).goals goal }
    ensures found { IfOk result (λ found. IsFirstFound (W.choice (W.fixed world.old)) (W.picks world.old) ((W.choice (W.fixed world.old)).proposals goal) found) }
    ensures fixed { W.fixed world.new ≡ W.fixed world.old }
    ensures picks { W.picks world.new ≡ W.picks world.old }
{
    let count = world.proposals(GoalId(goal)).len();
    for place in 0..count {
        let group = proposal(alloc, world, goal, place)?;
        if world.admits(alloc, &group)? {
            return Ok(Some(group));
        }
    }
    Ok(None)
}

/// The first proposal of a pending goal without a pick that is admitted, or `None` where the goal has a pick or each of its
/// proposals is refused.
pub fn next_pick<W: World>(
    alloc: Global,
    world: &mut W,
    goal: u64,
) -> Result<Option<Group>, AllocError>
    requires { Contains (W.choice (W.fixed world.old)).goals goal }
    ensures next { IfOk result (λ next. IsNext (W.choice (W.fixed world.old)) (W.picks world.old) goal next) }
    ensures fixed { W.fixed world.new ≡ W.fixed world.old }
    ensures picks { W.picks world.new ≡ W.picks world.old }
{
    if world.picked(GoalId(goal)) {
        return Ok(None);
    }
    first_admitted(alloc, world, goal)
}
