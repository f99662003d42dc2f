//! The laws of statuses, each the contract of a function that does nothing.

ghost use Rattle.lps_model.specs.Acceptance.{IsAccepted};
ghost use Rattle.lps_statuses.specs.Laws.{CutIsForever, FailedIsForever, RulesAreTrue, StatusStays, StatusesAreUnique};

/// A goal has one status at a time. In an accepted text a goal that is closed stays closed so, in every continuation of
/// the trace; after Failed no alternative becomes true at any nesting; after Cut none does by calls that nest at most
/// the depth. Of acceptance this needs no more than `frame_law` says.
pub fn status_law()
    ensures unique { StatusesAreUnique }
    ensures stays { StatusStays IsAccepted }
    ensures failed { FailedIsForever IsAccepted }
    ensures cut { CutIsForever IsAccepted }
{}

/// Where no goal is pending, failed or cut, every rule is true.
pub fn rule_law()
    ensures { RulesAreTrue }
{}
