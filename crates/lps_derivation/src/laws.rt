//! The laws of derivation, each the contract of a function that does nothing.

ghost use Rattle.lps_derivation.specs.Laws.{LevelsDoNotMatter, OtherFactsDoNotMatter, TruthIsByClauses};

/// An atom is true exactly where it is a fact, or is the head of an instance of a clause whose positive
/// literals are true, whose negated ones are not, and whose built-ins are true.
pub fn truth_law()
    ensures { TruthIsByClauses }
{}

/// What is true does not depend on the levels, as long as each call goes to no higher level and each
/// negated call to a lower one.
pub fn level_law()
    ensures { LevelsDoNotMatter }
{}

/// What is true of some names does not depend on facts of other names, where the clauses of these names call
/// these names alone. So the truth of a timeless atom is the same over all facts.
pub fn reach_law()
    ensures { OtherFactsDoNotMatter }
{}
