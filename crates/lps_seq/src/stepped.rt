use lps_meaning::{Carry, Node};

/// What a sequence comes to at a time.
#[derive(Drop)]
pub struct Stepped {
    /// What is left of its live plans, each once.
    pub nodes: Vec<Node>,
    /// What its instances carry that end then, each once: in the order of values, then of times.
    pub ended: Vec<Carry>,
    /// Whether a plan is cut then. Without macro calls none is.
    pub cut: bool,
}
