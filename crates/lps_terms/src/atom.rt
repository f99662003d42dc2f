use crate::name::Name;
use crate::term::Args;

/// A predicate with its 0 to 64 arguments.
#[derive(Drop)]
pub struct Atom {
    pub name: Name,
    pub args: Args,
}
