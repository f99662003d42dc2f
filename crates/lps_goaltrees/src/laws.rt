//! The laws of goals that are pursued, each the contract of a function that does nothing.

ghost use Rattle.lps_goaltrees.specs.Laws.{OffersAreProposals, SolvedAtOnce, SolvedNext, StandsInContinuations};

use lps_nodes::led_law;

/// A goal is solved at its own time exactly where an alternative ends then, and later exactly where it was solved in the cycle before or
/// an alternative ends.
pub fn solved_law()
    ensures at_once { SolvedAtOnce }
    ensures next { SolvedNext }
{}

/// What the nodes of a goal offer, where what is kept of it is right for the trace, is exactly what it proposes in the trace, with the
/// alternatives and ranks of its plans.
pub fn offer_law()
    ensures { OffersAreProposals }
{
    led_law();
}

/// What stands for a trace at a time stands for each continuation of the trace at that time.
pub fn pursuit_law()
    ensures { StandsInContinuations }
{}
