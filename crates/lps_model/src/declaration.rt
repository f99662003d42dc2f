use lps_terms::Name;

/// A name that a statement declares, with the statement's line.
#[derive(Drop)]
pub struct Declaration {
    pub line: u32,
    pub name: Name,
}
