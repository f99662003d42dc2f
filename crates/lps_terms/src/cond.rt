use crate::built::Built;
use crate::lit::Lit;

/// A condition of a law or a clause.
#[derive(Drop)]
pub enum Cond {
    Lit(Lit),
    Built(Built),
}
