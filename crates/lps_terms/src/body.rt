use crate::atom::Atom;
use crate::cond::Cond;
use crate::decl::Decl;
use crate::item::Item;
use crate::time_var::TimeVar;
use sqlite_items::Items;

/// What a statement says.
#[derive(Drop)]
pub enum Body {
    Declare(Items<Decl>),
    /// The facts at the start.
    Initially(Items<Atom>),
    /// What may not be.
    Denial(Items<Item>),
    /// Whenever the antecedent is true, some alternative is to be made true.
    Rule {
        antecedent: Items<Item>,
        alternatives: Items<Items<Item>>,
    },
    /// The event initiates the fluent under the conditions, or else terminates it.
    Law {
        initiates: bool,
        event: Atom,
        fluent: Atom,
        conds: Items<Cond>,
    },
    /// A timeless or derived atom is true under the conditions.
    Clause {
        head: Atom,
        conds: Items<Cond>,
    },
    /// One way to carry out a macro call from `begin` to `end`.
    MacroClause {
        head: Atom,
        begin: TimeVar,
        end: TimeVar,
        items: Items<Item>,
    },
}
