//! The laws of levels and cycles, each the contract of a function that does nothing.

ghost use Rattle.lps_levels.specs.Laws.{CyclesAreUnique, LevelsExcludeCycles};

/// A text with levels is not refused for a cycle.
pub fn levelled_texts_have_no_cycle()
    ensures { LevelsExcludeCycles }
{}

/// A text is refused for no more than one cycle.
pub fn cycles_are_unique()
    ensures { CyclesAreUnique }
{}
