ghost use Rattle.std.specs.Prelude.{◌≡◌, ℕ, Contains, MatchResult, IfOk, OnOk, drop};
ghost use Rattle.std.specs.List.{AllByRecursion};
ghost use Rattle.lps_choice.specs.Choices.{Extends, IsPassedOver};
ghost use Rattle.lps_choice.specs.Passes.{AllPasses, ArePlain, Gives, Grows, Pass, in_order};

use crate::chooser::Chooser;
use crate::next::{next_pick, numbers};
use crate::world::World;
use lps_meaning::GoalId;
use lps_terms::Prefer;
use std::alloc::{AllocError, Global};

/// The chooser that goes over the goals again and again, each time giving each goal without a pick its first proposal that is
/// admitted, until none is left.
#[derive(Clone, Copy, Debug)]
pub struct Plain {
    pub prefer: Prefer,
}

/// Gives a goal its first proposal that is admitted, where it has no pick. Answers whether it did.
fn give<W: World>(alloc: Global, world: &mut W, goal: u64) -> Result<bool, AllocError>
    requires { Contains (W.choice (W.fixed world.old)).goals goal }
    ensures fixed { W.fixed world.new ≡ W.fixed world.old }
    ensures given { MatchResult result (λ given. Gives (W.choice (W.fixed world.old)) goal (W.picks world.old) (W.picks world.new) given) (λ _. W.picks world.new ≡ W.picks world.old) }
{
    match next_pick(alloc, world, goal)? {
        Some(group) => {
            world.take(alloc, GoalId(goal), &group)?;
            Ok(true)
        }
        None => Ok(false),
    }
}

/// Goes over the goals once. Those from place `asked` on get nothing before a pick is made, and are asked only after one.
/// Answers the place behind the last goal that got a pick, or 0: those from there on get nothing before one more is made.
fn pass<W: World>(
    alloc: Global,
    world: &mut W,
    goals: &[u64],
    asked: usize,
) -> Result<usize, AllocError>
    requires pending { (goal : ℕ) → Contains goals.now goal → Contains (W.choice (W.fixed world.old)).goals goal }
    requires idle { AllByRecursion (IsPassedOver (W.choice (W.fixed world.old)) (W.picks world.old)) (drop asked goals.now) }
    ensures fixed { W.fixed world.new ≡ W.fixed world.old }
    ensures legal { Extends (W.choice (W.fixed world.old)) (W.picks world.old) (W.picks world.new) }
    ensures passed { OnOk result (Pass (W.choice (W.fixed world.old)) goals.now (W.picks world.old) (W.picks world.new)) }
    ensures grows { IfOk result (λ end. Grows (W.picks world.old) (W.picks world.new) end) }
    ensures idle { IfOk result (λ end. AllByRecursion (IsPassedOver (W.choice (W.fixed world.old)) (W.picks world.new)) (drop end goals.now)) }
{
    let mut end = 0;
    for (place, goal) in goals.iter().enumerate() {
        if end == 0 && asked <= place {
            return Ok(0);
        }
        if give(alloc, world, *goal)? {
            end = place + 1;
        }
    }
    Ok(end)
}

/// Goes over the goals until no pick is made.
fn passes<W: World>(alloc: Global, world: &mut W, goals: &[u64]) -> Result<(), AllocError>
    requires { (goal : ℕ) → Contains goals.now goal → Contains (W.choice (W.fixed world.old)).goals goal }
    ensures fixed { W.fixed world.new ≡ W.fixed world.old }
    ensures legal { Extends (W.choice (W.fixed world.old)) (W.picks world.old) (W.picks world.new) }
    ensures passed { OnOk result (AllPasses (W.choice (W.fixed world.old)) goals.now (W.picks world.old) (W.picks world.new)) }
{
    let mut asked = goals.len();
    loop {
        asked = pass(alloc, world, goals, asked)?;
        if asked == 0 {
            return Ok(());
        }
    }
}

/// The pending goals in the order in which a pass goes over them.
fn goals_in_order<W: World>(
    alloc: Global,
    world: &W,
    prefer: Prefer,
) -> Result<Vec<u64>, AllocError>
    ensures { IfOk result (λ goals. goals.items ≡ in_order prefer (W.choice (W.fixed world.now)).goals) }
{
    let mut goals = numbers(alloc, world.goals())?;
    match prefer {
        Prefer::Oldest => Ok(goals),
        Prefer::Newest => {
            goals.reverse();
            Ok(goals)
        }
    }
}

impl Chooser for Plain {
    ghost may_choose = { λ plain choice made all. ArePlain choice plain.prefer made all };

    fn choose<W: World>(&mut self, alloc: Global, world: &mut W) -> Result<(), AllocError> {
        let goals = goals_in_order(alloc, world, self.prefer)?;
        passes(alloc, world, goals.as_slice())
    }
}
