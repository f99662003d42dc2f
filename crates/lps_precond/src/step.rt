use lps_facts::Facts;
use lps_terms::Atom;

/// What denials are asked about: some events, of which all but the new ones violate no denial, with the states before and after
/// them.
#[derive(Clone, Copy)]
pub struct Step<'a> {
    /// The events.
    pub events: &'a [Atom],
    /// The events as a set.
    pub happened: &'a Facts,
    /// The new ones among them.
    pub new: &'a [Atom],
    /// The state that the events come in.
    pub before: &'a Facts,
    /// The state that they make of it.
    pub after: &'a Facts,
    /// The fluents in which the state after may be another than that which the old events make.
    pub touched: &'a [Atom],
}

/// What is new in the instances of a denial that are asked for.
#[derive(Clone, Copy)]
pub(crate) enum Through<'a> {
    /// One of these events is to happen.
    Event(&'a Facts),
    /// One of these fluents is to be true or not to be true after the events, or what is derived is.
    Fluents(&'a Facts),
}
