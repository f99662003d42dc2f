//! The symbols of what is kept from cycle to cycle.
ghost use Rattle.std.specs.Prelude.{◌≡◌, List};
ghost use Rattle.lps_antecedents.specs.declared.held.Held.{Held as Waits};
ghost use Rattle.lps_antecedents.specs.Slots.{held_size};
ghost use Rattle.lps_goaltrees.specs.declared.goal.Goal.{Goal as Pursued};
ghost use Rattle.lps_goaltrees.specs.Pursued.{goals_size};
ghost use Rattle.lps_limits.specs.Sizes.{kept_size};
ghost use Rattle.lps_sizes.specs.Sizes.{limited};

/// How many symbols are kept of what waits for antecedents and of the goals that are pursued, which have so many. `u64::MAX` stands for
/// that number and all above.
pub fn kept(waiting: u64, pursued: u64) -> u64
    ensures { (held : List Waits) (goals : List Pursued) → waiting ≡ limited (held_size held) → pursued ≡ limited (goals_size goals) →
        result ≡ limited (kept_size held goals) }
{
    waiting.saturating_add(pursued)
}
