//! The symbols of goals with their nodes.
ghost use Rattle.std.specs.Prelude.{◌≡◌, sum_by};
ghost use Rattle.lps_nodes.specs.Nodes.{goal_size, node_size};
ghost use Rattle.lps_sizes.specs.Sizes.{limited};

use crate::node::{node_symbols, terms_symbols};
use lps_meaning::{GoalKey, Node};

/// How many symbols a goal with this key and these nodes has. `u64::MAX` stands for that number and all above.
pub fn goal_symbols(key: &GoalKey, nodes: &[Node]) -> u64
    ensures { result ≡ limited (goal_size key.now nodes.now) }
{
    1u64.saturating_add(terms_symbols(key.values.as_slice()))
        .saturating_add(key.times.len() as u64)
        .saturating_add(nodes_symbols(nodes))
}

/// How many symbols these nodes have together. `u64::MAX` stands for that number and all above.
pub fn nodes_symbols(nodes: &[Node]) -> u64
    ensures { result ≡ limited (sum_by node_size nodes.now) }
{
    let mut count = 0u64;
    for node in nodes {
        count = count.saturating_add(node_symbols(node));
    }
    count
}
