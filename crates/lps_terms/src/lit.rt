use crate::atom::Atom;

/// A literal: an atom, or `not` and an atom.
#[derive(Drop)]
pub struct Lit {
    pub negated: bool,
    pub atom: Atom,
}
