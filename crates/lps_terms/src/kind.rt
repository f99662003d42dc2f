/// What a predicate is declared as.
#[derive(Clone, Copy, Debug, PartialEq, Eq)]
pub enum Kind {
    Fluent,
    Event,
    Action,
    Timeless,
    Derived,
    Macro,
}
