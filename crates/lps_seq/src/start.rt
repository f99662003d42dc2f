use lps_meaning::GoalKey;

/// A sequence that is entered.
#[derive(Drop)]
pub enum Start {
    /// The antecedent of a rule, by its number from 1 in text order.
    Antecedent { rule: u32 },
    /// An alternative of the rule of a goal, by its number from 1.
    Alternative { key: GoalKey, alternative: u32 },
}
