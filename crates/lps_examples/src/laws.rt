//! The worked examples, each a clause of the contract of a function that does nothing.

ghost use Rattle.lps_examples.specs.Examples.{BegunAnewExample, DeadlineExample, DepthExample, FireExample, InitiationWinsExample, NestingExample, NodeExample, OldStateExample, OneAfterOtherExample, OneGoalExample, OneOrderExample, OtherAlternativeExample, ParcelOfficeExample, RejectExample, WaitingExample};
ghost use Rattle.lps_examples.specs.Derivations.{ExampleHasLevels, OneAnswer};

/// Small texts with traces. States and denials: what is initiated and terminated at once, conditions read in the state
/// before, and events that are rejected. Goals: one that is solved, a deadline that passes, another alternative, one goal
/// for two instances of an antecedent, one that waits for an event and does nothing twice, a plan that is begun anew, calls
/// that nest too deep, and the first goals of a parcel office. And what is left of an antecedent.
pub fn example_law()
    ensures deadline { DeadlineExample }
    ensures one_goal { OneGoalExample }
    ensures waiting { WaitingExample }
    ensures begun_anew { BegunAnewExample }
    ensures depth { DepthExample }
    ensures nesting { NestingExample }
    ensures one_after_other { OneAfterOtherExample }
    ensures node { NodeExample }
    ensures initiation_wins { InitiationWinsExample }
    ensures old_state { OldStateExample }
    ensures reject { RejectExample }
    ensures one_order { OneOrderExample }
    ensures fire { FireExample }
    ensures other_alternative { OtherAlternativeExample }
    ensures parcel_office { ParcelOfficeExample }
{}

/// A small program with a negated literal and two clauses for one predicate has levels, and one answer.
pub fn derivation_law()
    ensures levels { ExampleHasLevels }
    ensures answer { OneAnswer }
{}
