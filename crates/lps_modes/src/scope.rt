use lps_model::Kinds;
use lps_terms::Name;

/// Where items stand.
#[derive(Clone, Copy)]
pub struct Scope<'a> {
    pub kinds: &'a Kinds,
    /// The written names of the statement's variables.
    pub names: &'a [Name],
    /// The written names of its times.
    pub times: &'a [Name],
    /// The times that constraints may speak of.
    pub steps: &'a [u32],
    /// Whether the items are still to be done: those of a consequent or a macro body.
    pub is_planned: bool,
}
