ghost use Rattle.std.specs.Prelude.{◌≡◌, List, OnOk};
ghost use Rattle.lps_model.specs.declared.cycle.Pick.{Pick};
ghost use Rattle.lps_choice.specs.Choices.{Choice, Extends, IsSettled};

use crate::world::World;
use std::alloc::{AllocError, Global};

/// Who makes the picks of a cycle.
pub trait Chooser {
    /// From some picks in a choice, it may come to all of these.
    ghost may_choose: { Self → Choice → List Pick → List Pick → Type 0 };

    /// Makes picks until none is left to be made: with those that were made before, they are legal. Where memory ran out, some
    /// of them are made.
    fn choose<W: World>(&mut self, alloc: Global, world: &mut W) -> Result<(), AllocError>
        ensures fixed { W.fixed world.new ≡ W.fixed world.old }
        ensures legal { Extends (W.choice (W.fixed world.old)) (W.picks world.old) (W.picks world.new) }
        ensures settled { OnOk result (IsSettled (W.choice (W.fixed world.old)) (W.picks world.new)) }
        ensures chosen { OnOk result (may_choose self.old (W.choice (W.fixed world.old)) (W.picks world.old) (W.picks world.new)) };
}
