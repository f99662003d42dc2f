//! What is found at a time.
ghost use Rattle.std.specs.Prelude.{◌≡◌, ◌↔◌, [], IfOk, IsTrue, OnOk, Contains, false};
ghost use Rattle.std.specs.List.Sorted.{IsStrictlySortedBy};
ghost use Rattle.lps_seq.specs.Carries.{carry_cmp};
ghost use Rattle.lps_seq.specs.Found.{Adds};

use crate::ended::Ended;
use crate::stepped::Stepped;
use lps_meaning::{Carry, Node};
use lps_residual::are_same;
use std::alloc::{AllocError, Global};
use std::collections::BTreeSet;

/// The nodes that are left, each once, and what the instances carry that end, in order.
#[derive(Drop)]
pub(crate) struct Found {
    nodes: Vec<Node>,
    ended: BTreeSet<Ended>,
}

impl Found {
    pub(crate) fn new(alloc: Global) -> Found
        ensures nodes { result.nodes.items ≡ [] }
        ensures ended { result.ended.keys ≡ [] }
    {
        Found {
            nodes: Vec::new(alloc),
            ended: BTreeSet::new(alloc),
        }
    }

    /// Adds a node where it is new.
    pub(crate) fn add_node(&mut self, node: Node) -> Result<(), AllocError>
        ensures { OnOk result (Adds self.old self.new (λ o. o ≡ node) (λ c. ⊥)) }
    {
        if !has(self.nodes.as_slice(), &node) {
            self.nodes.push(node)?;
        }
        Ok(())
    }

    /// Adds what an instance carries.
    pub(crate) fn add_ended(&mut self, carry: Carry) -> Result<(), AllocError>
        ensures { OnOk result (Adds self.old self.new (λ o. ⊥) (λ c. c ≡ carry)) }
    {
        self.ended.insert(Ended::new(carry))?;
        Ok(())
    }

    /// All that was found.
    pub(crate) fn stepped(self, alloc: Global) -> Result<Stepped, AllocError>
        ensures nodes { IfOk result (λ stepped. stepped.nodes.items ≡ self.nodes.items) }
        ensures ended { IfOk result (λ stepped. stepped.ended.items ≡ self.ended.keys) }
        ensures sorted { IfOk result (λ stepped. IsStrictlySortedBy carry_cmp stepped.ended.items) }
        ensures cut { IfOk result (λ stepped. stepped.cut ≡ false) }
    {
        let _count = self.ended.len();
        let Found { nodes, ended } = self;
        let mut carries = Vec::new(alloc);
        for each in ended {
            carries.push(each.into_carry())?;
        }
        Ok(Stepped {
            nodes,
            ended: carries,
            cut: false,
        })
    }
}

fn has(nodes: &[Node], node: &Node) -> bool
    ensures { IsTrue result ↔ Contains nodes.now node.now }
{
    for other in nodes {
        if are_same(node, other) {
            return true;
        }
    }
    false
}
