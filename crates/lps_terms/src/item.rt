use crate::atom::Atom;
use crate::built::Built;
use crate::con::Con;
use crate::lit::Lit;
use crate::time_var::TimeVar;

/// A part of a sequence.
#[derive(Drop)]
pub enum Item {
    /// A literal at a time.
    At(Lit, TimeVar),
    /// A literal that no time bears on.
    Bare(Lit),
    Built(Built),
    /// An event, an action or a macro call, from a time to a time.
    Span(Atom, TimeVar, TimeVar),
    Con(Con),
}
