//! The laws of nodes, as the contracts of functions that do nothing.

ghost use Rattle.lps_nodes.specs.Laws.{CutPlansGoOn, CutsComeFromNodes, EndsComeFromNodes, GeneralAreVariants, GeneralIsReached, GoalNodesAreNodes, HeldNodesGoOn, InstancesGoOn, IntegersServe, IntegersServeBegins, KeysAreEnds, KeysAreUnique, LivePlansGoOn, LivePlansLead, NodesCanComeTrue, NodesComeFromNodes, NodesWait, PassesAreWalked, PlansCanComeTrue, PlansShowGroups, ProposalsAreUnique, ResidualsAreUnique, ResidualsExist, StartIsGeneral, StartsLead, StepsAloneAreWalked, StepsAreGeneral, TestedDoNotMatter, TimesAreLeft, UnfoldingsAreWalked, WaitingNodesAreNodes, WaitingPlansGoOn, WhatCanComeTrueHasPlans};
ghost use Rattle.lps_nodes.specs.LedLaws.{ActionsAreGround, EnteredAreGiven, NodesAreLedOn, NodesAreLedToCuts, NodesAreLedToEnds, NodesAreResiduals, NodesAreThoseOfPrefix, NodesPropose, NoneIsCutWithoutCalls, StartsAreLedOn, StartsAreLedToCuts, StartsAreLedToEnds};

/// What is left of a sequence: each place of a walk has a most general shape, which single steps reach and lead to. In a
/// well-formed text a step that is made on such a shape alone is one of a walk, and in an accepted one so are steps that
/// are made on it at one time. Conversely steps alone lead from a start, and from what is left of a live plan, to all that
/// a walk goes on to from there; and each live plan, each instance that ends and each plan that is cut comes through a live
/// plan of the time before, if it did not start in this time or was cut then. Most general shapes are instances of each
/// other, so a place has one residual, and it has one. In an accepted text its time conditions have a solution exactly
/// where a plan can go on there. The groups of such a plan can be told from what is left. A solution in integers serves as
/// well as one in natural numbers, as long as each unknown time stands in an item left, as it does in an accepted text.
pub fn node_law()
    ensures starts { StartIsGeneral }
    ensures steps { StepsAreGeneral }
    ensures reached { GeneralIsReached }
    ensures passes { PassesAreWalked }
    ensures unfoldings { UnfoldingsAreWalked }
    ensures alone { StepsAloneAreWalked }
    ensures starts_lead { StartsLead }
    ensures lead { LivePlansLead }
    ensures live { LivePlansGoOn }
    ensures cut { CutPlansGoOn }
    ensures instances { InstancesGoOn }
    ensures variants { GeneralAreVariants }
    ensures unique { ResidualsAreUnique }
    ensures exist { ResidualsExist }
    ensures plans { PlansCanComeTrue }
    ensures has_plans { WhatCanComeTrueHasPlans }
    ensures show { PlansShowGroups }
    ensures waiting { WaitingPlansGoOn }
    ensures integers { IntegersServe }
    ensures begins { IntegersServeBegins }
    ensures times_left { TimesAreLeft }
{}

/// From cycle to cycle: the nodes of a time are those that the nodes of the time before go on to, and what ends or is cut
/// then comes from these nodes too, so none is lost. Steps can be made on a node as on all that is left, since constraints
/// whose times are all known do not matter to them. A node waits for exactly as long as its own time conditions have a
/// solution. The nodes of goals, those that wait for antecedents and the keys of
/// goals are what the entrances of rules give. A cycle has one list of keys, and a node proposes one group at most.
pub fn progress_law()
    ensures tested { TestedDoNotMatter }
    ensures nodes_come { NodesComeFromNodes }
    ensures ends_come { EndsComeFromNodes }
    ensures cuts_come { CutsComeFromNodes }
    ensures held { HeldNodesGoOn }
    ensures can { NodesCanComeTrue }
    ensures wait { NodesWait }
    ensures goal_nodes { GoalNodesAreNodes }
    ensures waiting_nodes { WaitingNodesAreNodes }
    ensures key_ends { KeysAreEnds }
    ensures keys { KeysAreUnique }
    ensures proposals { ProposalsAreUnique }
{}

/// What a time gives, told by steps alone, in an accepted and well-formed text: a node goes on to exactly the nodes that steps
/// which end at the next time lead to from it, and the same is so of what ends and of what is cut there; and a sequence that is
/// entered gives at its own time exactly what such steps lead to from where it is entered, with what is given put in. A node
/// proposes exactly the groups of actions that are the next steps of live plans that leave it, which are ground in an
/// alternative. A plan of a sequence with no macro call is never cut. The nodes of a time depend on the trace up to it alone.
pub fn led_law()
    ensures on { NodesAreLedOn }
    ensures ends { NodesAreLedToEnds }
    ensures cuts { NodesAreLedToCuts }
    ensures starts { StartsAreLedOn }
    ensures starts_end { StartsAreLedToEnds }
    ensures starts_cut { StartsAreLedToCuts }
    ensures given { EnteredAreGiven }
    ensures residuals { NodesAreResiduals }
    ensures propose { NodesPropose }
    ensures ground { ActionsAreGround }
    ensures uncut { NoneIsCutWithoutCalls }
    ensures prefix { NodesAreThoseOfPrefix }
{}
