use crate::kind::Kind;
use crate::mode::Mode;
use crate::name::Name;
use sqlite_items::Items;

/// The declaration of a predicate.
#[derive(Drop)]
pub struct Decl {
    pub kind: Kind,
    pub name: Name,
    /// 0 to 64.
    pub arity: u32,
    /// One for each argument of a timeless, derived or macro predicate; else none.
    pub modes: Items<Mode>,
}
