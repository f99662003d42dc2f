//! What is found of a goal at a time.
ghost use Rattle.std.specs.Prelude.{◌≡◌, ◌↔◌, ◌∷◌, ◌⊎◌, [], true, false, IsTrue, OnOk, Contains};
ghost use Rattle.lps_meaning.specs.declared.node.Carry.{Carry as Ended};
ghost use Rattle.lps_goaltrees.specs.Found.{AddsNodes, Grows};

use lps_meaning::{Carry, Node};
use lps_residual::are_same;
use lps_seq::Stepped;
use std::alloc::{AllocError, Global};

/// The nodes that are left of a goal's plans, each once, and whether an alternative is true.
#[derive(Drop)]
pub(crate) struct Found {
    pub nodes: Vec<Node>,
    pub solved: bool,
}

impl Found {
    pub(crate) fn new(alloc: Global, solved: bool) -> Found
        ensures nodes { result.nodes.items ≡ [] }
        ensures solved { result.solved ≡ solved }
    {
        Found {
            nodes: Vec::new(alloc),
            solved,
        }
    }

    /// Adds what a sequence comes to.
    pub(crate) fn add(&mut self, stepped: Stepped) -> Result<(), AllocError>
        ensures { OnOk result (Grows self.old self.new (Contains stepped.nodes.items) ((c : Ended) × Contains stepped.ended.items c)) }
    {
        let Stepped {
            nodes,
            ended,
            cut: _,
        } = stepped;
        self.solved = is_solved(self.solved, ended.as_slice());
        add_nodes(nodes, &mut self.nodes)
    }
}

/// Whether a goal was solved, or something ended.
fn is_solved(solved: bool, ended: &[Carry]) -> bool
    ensures yes { result ≡ true → (solved ≡ true) ⊎ ((c : Ended) × Contains ended.now c) }
    ensures no { result ≡ false → (solved ≡ false) × (((c : Ended) × Contains ended.now c) → ⊥) }
{
    if solved {
        return true;
    }
    !ended.is_empty()
}

/// Adds those nodes that are new.
fn add_nodes(nodes: Vec<Node>, found: &mut Vec<Node>) -> Result<(), AllocError>
    ensures { OnOk result (AddsNodes found.old.items found.new.items nodes.items) }
{
    for node in nodes {
        add_node(node, found)?;
    }
    Ok(())
}

/// Adds a node where it is new.
fn add_node(node: Node, found: &mut Vec<Node>) -> Result<(), AllocError>
    ensures { OnOk result (AddsNodes found.old.items found.new.items (node ∷ [])) }
{
    if !has(found.as_slice(), &node) {
        found.push(node)?;
    }
    Ok(())
}

fn has(nodes: &[Node], node: &Node) -> bool
    ensures { IsTrue result ↔ Contains nodes.now node.now }
{
    for other in nodes {
        if are_same(node, other) {
            return true;
        }
    }
    false
}
