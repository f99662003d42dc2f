/// Where the name of a predicate may stand in a statement, a declaration left aside.
#[derive(Clone, Copy, Debug, PartialEq, Eq)]
pub enum Place {
    /// A fact of the start.
    Initial,
    /// The event of a law.
    Trigger,
    /// The fluent that a law initiates or terminates.
    Effect,
    /// From a time to a time, in a denial or an antecedent.
    Seen,
    /// From a time to a time, in an alternative or the body of a macro clause.
    Done,
    /// At a time.
    AtTime,
    /// An item of a sequence or a denial without times.
    Untimed,
    /// A condition of a law, or of a clause whose head is not timeless.
    Condition,
    /// A condition of a clause whose head is timeless.
    TimelessCondition,
    /// The head of a clause without times.
    Head,
    /// The head of a clause with times.
    MacroHead,
}
