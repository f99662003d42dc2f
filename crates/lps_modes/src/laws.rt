//! The laws of known variables, each the contract of a function that does nothing.

ghost use Rattle.lps_modes.specs.Laws.{LearningIsUnion, NoneIsUnknown};

/// Known variables are sets: what is learnt is added, and nothing is lost.
pub fn learning_is_union()
    ensures { LearningIsUnion }
{}

/// A list of variables has an unknown one exactly where not all are known.
pub fn none_is_unknown()
    ensures { NoneIsUnknown }
{}
