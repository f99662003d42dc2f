use crate::body::Body;
use crate::name::Name;
use sqlite_items::Items;

/// A statement of a text.
#[derive(Drop)]
pub struct Statement {
    /// The line of its first token, from 1.
    pub line: u32,
    /// The written names of its data variables, by number.
    pub names: Items<Name>,
    /// The written names of its times, by number.
    pub times: Items<Name>,
    pub body: Body,
}
