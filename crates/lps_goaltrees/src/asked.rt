//! What goals propose.
ghost use Rattle.std.specs.Prelude.{IfOk};
ghost use Rattle.std.specs.List.{AllZip};
ghost use Rattle.lps_goaltrees.specs.declared.slot.Which.TheVariants.{Now};
ghost use Rattle.lps_goaltrees.specs.Offers.{IsAskedOf};
ghost use Rattle.lps_goaltrees.specs.Pursued.{AreReadyGoals};
ghost use Rattle.lps_goaltrees.specs.Slots.{goals_of};

use crate::proposing::proposals;
use crate::slot::{Slot, Which};
use lps_meaning::GoalId;
use lps_model::{Accepted, Group};
use std::alloc::{AllocError, Global};

/// A goal, and what it proposes.
#[derive(Drop)]
pub struct Asked {
    pub goal: GoalId,
    pub proposals: Vec<Group>,
}

/// What each of some goals proposes at a time.
pub(crate) fn ask_all(
    alloc: Global,
    text: &Accepted,
    slots: &[Slot],
    time: u64,
) -> Result<Vec<Asked>, AllocError>
    requires ready { AreReadyGoals text.now (goals_of Now slots.now) }
    ensures { IfOk result (λ asked. AllZip (IsAskedOf text.now time) (goals_of Now slots.now) asked.items) }
{
    let mut asked = Vec::new(alloc);
    for slot in slots {
        if let Some(goal) = slot.versions.get(Which::Now) {
            asked.push(Asked {
                goal: goal.goal,
                proposals: proposals(alloc, text, goal, time)?,
            })?;
        }
    }
    Ok(asked)
}
