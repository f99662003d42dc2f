/// The places of the statements that are found by an atom, counted from 0 among the statements of their kind in text order:
/// those that are found by its first argument, and those that are found whatever that is. No place is in both.
#[derive(Clone, Copy)]
pub struct Found<'a> {
    pub keyed: &'a [usize],
    pub others: &'a [usize],
}
