//! A world of choices in memory.
ghost use Rattle.std.specs.Prelude.{◌≡◌, ◌↔◌, ◌++◌, ◌∷◌, [], map, length, Contains, IsTrue};
ghost use Rattle.std.specs.List.{flat_map};
ghost use Rattle.lps_choice.specs.Choices.{goals_of};
ghost use Rattle.lps_tests_parts.specs.Boards.{Plan, choice_in};

use lps_choice::{World, copy_group};
use lps_meaning::GoalId;
use lps_model::{Group, Pick};
use sqlite_items::Items;
use std::alloc::{AllocError, Global};

/// Two pending goals, what each proposes, and the picks so far. A denial says how many events may not happen together.
#[derive(Drop)]
pub struct Board {
    goals: Items<GoalId>,
    first: Items<Group>,
    second: Items<Group>,
    forbidden: usize,
    picks: Items<Pick>,
    ghost numbers: { map (λ goal. goal.0) goals ≡ 1 ∷ 2 ∷ [] },
}

impl Board {
    pub fn new(
        alloc: Global,
        first: Items<Group>,
        second: Items<Group>,
        forbidden: usize,
    ) -> Result<Board, AllocError> {
        Ok(Board {
            goals: Items::from_slice(alloc, &[GoalId(1), GoalId(2)])?,
            first,
            second,
            forbidden,
            picks: Items::new(alloc),
        })
    }

    /// The picks so far.
    pub fn picks(&self) -> &[Pick] {
        self.picks.as_slice()
    }
}

/// Whether one of some picks is of a goal.
fn has_pick(picks: &[Pick], goal: u64) -> bool
    ensures { IsTrue result ↔ Contains (goals_of picks.now) goal }
{
    for pick in picks {
        if pick.goal == goal {
            return true;
        }
    }
    false
}

/// Whether as many events are forbidden as happen by some picks and a group.
fn is_forbidden(picks: &[Pick], group: &Group, forbidden: usize) -> bool
    ensures { IsTrue result ↔ (length (flat_map (λ pick. pick.group.atoms) picks.now ++ group.now.atoms) ≡ forbidden) }
{
    let mut left = forbidden;
    for pick in picks {
        let count = pick.group.atoms.len();
        if left < count {
            return false;
        }
        left -= count;
    }
    group.atoms.len() == left
}

impl World for Board {
    ghost use Rattle.lps_tests_parts.specs.Boards.{Plan, choice_in};

    ghost Fixed = { Plan };

    ghost fixed = { λ board. record { first = board.first; second = board.second; forbidden = board.forbidden } };

    ghost choice = { choice_in };

    ghost picks = { λ board. board.picks };

    fn goals(&self) -> &[GoalId] {
        self.goals.as_slice()
    }

    fn proposals(&self, goal: GoalId) -> &[Group] {
        if goal.0 == 1 {
            self.first.as_slice()
        } else {
            self.second.as_slice()
        }
    }

    fn picked(&self, goal: GoalId) -> bool {
        has_pick(self.picks.as_slice(), goal.0)
    }

    fn admits(&mut self, _: Global, group: &Group) -> Result<bool, AllocError> {
        if is_forbidden(self.picks.as_slice(), group, self.forbidden) {
            return Ok(false);
        }
        Ok(true)
    }

    fn take(&mut self, alloc: Global, goal: GoalId, group: &Group) -> Result<(), AllocError> {
        let group = copy_group(alloc, group)?;
        self.picks.push(Pick {
            goal: goal.0,
            group,
        })
    }
}
