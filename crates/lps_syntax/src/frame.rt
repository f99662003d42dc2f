/// What is expected next: a phrase of the grammar, or what may still come of one that has begun.
#[derive(Clone, Copy, Debug)]
pub enum Frame {
    /// Statements, each with its full stop, up to the end.
    Text,
    /// The full stop of a statement, and the statements after it.
    End,
    /// `name / arity`
    Decl,
    Slash,
    Arity,
    MoreDecls,
    /// A name with its modes.
    Moded,
    /// The modes after a name, if any.
    ModeList,
    /// A mode and then at most `more` of them, a `*` among them only where it is free.
    Modes { more: u32, free: bool },
    MoreModes { more: u32, free: bool },
    MoreModed,
    /// An atom, with variables or without.
    Atom { vars: bool },
    /// The arguments after a name, if any.
    Args { vars: bool },
    Term { vars: bool },
    /// At most `more` terms, up to the closing parenthesis.
    Terms { vars: bool, more: u32 },
    /// The number of a negative integer.
    Negative,
    MoreAtoms,
    /// What follows the first atom of a law or a clause.
    Head,
    /// `if` and conditions, if any.
    Conditions,
    Cond,
    MoreConds,
    /// What follows an atom in a condition.
    AfterAtom,
    /// What follows the variable or integer that a built-in begins with.
    AfterLeaf,
    /// A unit of an expression.
    Unit,
    /// Operators and units, if any.
    Rest,
    /// Operators and units, then a relation and an expression.
    RestThenRel,
    /// Operators and units, then the closing parenthesis.
    RestThenClose,
    /// An item, a time constraint only where those are allowed.
    Item { bounds: bool },
    MoreItems { bounds: bool },
    /// What follows an atom in an item.
    AfterItemAtom,
    /// `at` and a time, if any.
    At,
    /// `time to time`
    Span,
    To,
    Time,
    /// What follows the first item of a rule.
    Antecedent,
    Alternatives,
    /// What follows the times of a macro clause.
    MacroBody,
    TimeRel,
    /// A sign and a number, if any.
    Shift,
    /// The number of a time constraint.
    Constant,
    /// A line of events.
    Line,
    Colon,
    Events,
    /// An event after the first.
    Event,
    MoreEvents,
    /// The full stop of a line.
    LineEnd,
}
