/// A call by the numbers of its names.
#[derive(Clone, Copy)]
pub struct Edge {
    pub caller: usize,
    pub callee: usize,
    pub is_strict: bool,
}
