use crate::statement::Statement;
use sqlite_items::Items;

/// A program's text.
#[derive(Drop)]
pub struct Text {
    pub statements: Items<Statement>,
}
