use lps_meaning::Node;

/// What waits: what is left of an antecedent that is partly met.
#[derive(Drop)]
pub struct Held {
    /// The number of the rule, from 1 in text order.
    pub rule: u32,
    pub node: Node,
}
