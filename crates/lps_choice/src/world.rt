ghost use Rattle.std.specs.Prelude.{◌≡◌, ◌++◌, ◌∷◌, [], ◌↔◌, List, map, Contains, IsTrue, IfOk, OnOk, OnErr};
ghost use Rattle.std.specs.List.Sorted.{IsStrictlySortedBy};
ghost use Rattle.std.specs.Ordering.{nat_cmp};
ghost use Rattle.lps_model.specs.declared.cycle.Pick.{Pick};
ghost use Rattle.lps_choice.specs.Choices.{Choice, Answers, IsPick, IsProposed, goals_of, pick_of};

use lps_meaning::GoalId;
use lps_model::Group;
use std::alloc::{AllocError, Global};

/// A cycle in which picks are made: its pending goals, what each of them proposes, and the picks so far.
pub trait World {
    /// What stays the same while picks are made.
    ghost Fixed: { Type 0 };

    ghost fixed: { Self → Fixed };

    /// What there is to choose from.
    ghost choice: { Fixed → Choice };

    /// The picks so far.
    ghost picks: { Self → List Pick };

    /// The pending goals, rising.
    fn goals(&self) -> &[GoalId]
        ensures numbers { map (λ goal. goal.0) result.now ≡ (choice (fixed self.now)).goals }
        ensures rising { IsStrictlySortedBy nat_cmp (choice (fixed self.now)).goals };

    /// The proposals of a pending goal, in the order in which they are preferred.
    fn proposals(&self, goal: GoalId) -> &[Group]
        requires { Contains (choice (fixed self.now)).goals goal.0 }
        ensures { result.now ≡ (choice (fixed self.now)).proposals goal.0 };

    /// Whether a pending goal has a pick.
    fn picked(&self, goal: GoalId) -> bool
        requires { Contains (choice (fixed self.now)).goals goal.0 }
        ensures { IsTrue result ↔ Contains (goals_of (picks self.now)) goal.0 };

    /// Whether a group, which is proposed, violates no denial with what happens by the picks so far. It is tried and undone.
    fn admits(&mut self, alloc: Global, group: &Group) -> Result<bool, AllocError>
        requires { IsProposed (choice (fixed self.old)) group.now }
        ensures answer { IfOk result (λ admitted. Answers (choice (fixed self.old)) (picks self.old) group.now admitted) }
        ensures fixed { fixed self.new ≡ fixed self.old }
        ensures picks { picks self.new ≡ picks self.old };

    /// Makes a pick. Where memory ran out, it is not made.
    fn take(&mut self, alloc: Global, goal: GoalId, group: &Group) -> Result<(), AllocError>
        requires { IsPick (choice (fixed self.old)) (picks self.old) (pick_of goal.0 group.now) }
        ensures fixed { fixed self.new ≡ fixed self.old }
        ensures made { OnOk result (picks self.new ≡ picks self.old ++ pick_of goal.0 group.now ∷ []) }
        ensures kept { OnErr result (picks self.new ≡ picks self.old) };
}
