use crate::When;
use lps_terms::{Atom, Built, Lit, Term, TimeRel};
use sqlite_items::Items;

/// The values and times that an antecedent carries to its goal.
#[derive(Drop)]
pub struct Carry {
    pub values: Items<Term>,
    pub times: Items<When>,
}

/// An item that is left of a sequence, with known values and times put in.
#[derive(Drop)]
pub enum LeftItem {
    At(Lit, When),
    Bare(Lit),
    Built(Built),
    Span(Atom, When, When),
}

/// An item that is left, and how deep the macro call nests that gave it: 0 for an item of the text's sequence.
#[derive(Drop)]
pub struct Left {
    pub item: LeftItem,
    pub nest: u32,
}

/// A constraint of which a time is not known.
#[derive(Clone, Copy, Debug, PartialEq, Eq)]
pub struct LeftCon {
    pub left: When,
    pub rel: TimeRel,
    pub right: When,
    pub plus: i64,
}

/// What is left of a live plan of a goal, or of a partly matched antecedent. Unknown variables and times are numbered
/// from 0 by first occurrence over carry, rest and limits.
#[derive(Drop)]
pub struct Node {
    /// The number of the alternative, from 1; 0 for an antecedent.
    pub alternative: u32,
    /// The numbers of the macro clauses chosen so far, each from 1 in text order per macro.
    pub rank: Items<u32>,
    /// How many groups are done.
    pub done: u32,
    /// What an antecedent carries to its goal; of a goal, nothing.
    pub carry: Carry,
    /// The items left, without constraints; the first is a step and no macro call.
    pub rest: Items<Left>,
    /// The constraints that name an unknown time.
    pub limits: Items<LeftCon>,
}
