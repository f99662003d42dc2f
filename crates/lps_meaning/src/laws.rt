//! The laws of the definitions, each the contract of a function that does nothing.

ghost use Rattle.lps_meaning.specs.Laws.{AcceptedAreFramed, BlocksAreUnique, BlocksStay, BlocksTellRuns, DecidedUpdateLaw, GoalsAreUnique, HoldsIsPersistence, LevelsDoNotMatterInStates, NoneIsViolated, NumbersStay, OtherFluentsDoNotMatter, PlainRunsAreRuns, PlainRunsAreUnique, ReportsAreUnique, StartLaw, StatesAreByClauses, UpdateLaw};

/// A fluent holds in a state exactly where it began by then and did not end since. So state i+1 is state i without
/// the fluents that are terminated in cycle i+1, together with those that are initiated there; state 0 has the
/// initial facts.
pub fn state_law()
    ensures persistence { HoldsIsPersistence }
    ensures start { StartLaw }
    ensures update { UpdateLaw }
    ensures decided { DecidedUpdateLaw }
{}

/// An atom is true in a state where it holds, or follows by a clause there. What is true in a state does not depend on which
/// levels of the clauses are taken, nor on fluents that the clauses do not reach: so a timeless atom is true in all states or in
/// none.
pub fn truth_law()
    ensures by_clauses { StatesAreByClauses }
    ensures levels { LevelsDoNotMatterInStates }
    ensures reach { OtherFluentsDoNotMatter }
{}

/// What happens in a cycle of a run violates no denial of an accepted text: neither the events nor the picks, nor all together.
pub fn denial_law()
    ensures { NoneIsViolated }
{}

/// Each macro clause of an accepted text begins with its first step and ends with its last.
pub fn frame_law()
    ensures { AcceptedAreFramed }
{}

/// The goals of a trace are one list, and a goal keeps its number.
pub fn goal_law()
    ensures unique { GoalsAreUnique }
    ensures stay { NumbersStay }
{}

/// Some batches have one plain run, and it is a run.
pub fn plain_law()
    ensures runs { PlainRunsAreRuns }
    ensures unique { PlainRunsAreUnique }
{}

/// The block of a cycle depends on the cycles up to it alone. A cycle has one block, a trace has one report, and what is
/// reported of all cycles tells the run.
pub fn report_law()
    ensures blocks_stay { BlocksStay }
    ensures blocks { BlocksAreUnique }
    ensures reports { ReportsAreUnique }
    ensures tell { BlocksTellRuns }
{}
