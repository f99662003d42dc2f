use crate::Place;
use lps_terms::Name;

/// The name of a predicate where it stands in a text: in a statement that begins on this line, with so many arguments.
#[derive(Drop)]
pub struct Occurrence {
    pub line: u32,
    pub name: Name,
    pub count: usize,
    pub place: Place,
}
