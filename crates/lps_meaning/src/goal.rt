use lps_terms::Term;
use sqlite_items::Items;

/// The number of a goal, from 1 over the whole run.
#[derive(Clone, Copy, Debug, PartialEq, Eq)]
pub struct GoalId(pub u64);

/// What a goal is known by.
#[derive(Drop)]
pub struct GoalKey {
    /// The number of the rule, from 1 in text order.
    pub rule: u32,
    /// The values of the variables that its antecedent and its alternatives share.
    pub values: Items<Term>,
    /// The values of the times that they share.
    pub times: Items<u64>,
    /// The last time of the antecedent.
    pub time: u64,
}

/// A goal that was created in a cycle.
#[derive(Drop)]
pub struct NewGoal {
    pub goal: GoalId,
    pub key: GoalKey,
}

/// How a goal was closed.
#[derive(Clone, Copy, Debug, PartialEq, Eq)]
pub enum Closed {
    Solved,
    /// No alternative can become true any more.
    Failed,
    /// No alternative can become true any more by calls that nest at most the depth.
    Cut,
}

/// How many goals are not solved.
#[derive(Clone, Copy, Debug, PartialEq, Eq)]
pub struct Counts {
    pub pending: u64,
    pub failed: u64,
    pub cut: u64,
}
