use lps_terms::Atom;

/// A change of a set of facts: the fact was put in, or else taken out.
#[derive(Drop)]
pub struct Change {
    pub inserted: bool,
    pub fact: Atom,
}
