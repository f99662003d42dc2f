//! The laws of counts, the contract of a function that does nothing.
ghost use Rattle.std.specs.Prelude.{◌≡◌, ◌+◌, ℕ};
ghost use Rattle.lps_model.specs.declared.cycle.Cycle.{Cycle};
ghost use Rattle.lps_model.specs.declared.trace.Trace.{Trace};
ghost use Rattle.lps_model.specs.Trace.{then_cycle};
ghost use Rattle.lps_sizes.specs.Sizes.{cycle_size, limited, log_size};

/// Counts can be added up cycle by cycle: with one cycle more the log grows by the size of that cycle, and a sum of counts, counted again,
/// is the count of the sum.
pub fn count_law()
    ensures grows { (trace : Trace) (cycle : Cycle) → log_size (then_cycle trace cycle) ≡ log_size trace + cycle_size cycle }
    ensures sums { (m n : ℕ) → limited (limited m + limited n) ≡ limited (m + n) }
{}
