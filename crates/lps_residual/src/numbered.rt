//! Nodes in canonical numbers.
ghost use Rattle.std.specs.Prelude.{◌≡◌, ℕ, IfOk, length};
ghost use Rattle.lps_nodes.specs.Nodes.{left_in};
ghost use Rattle.lps_nodes.specs.Shapes.{IsCanonical};
ghost use Rattle.lps_residual.specs.Moments.{IsTimed};
ghost use Rattle.lps_residual.specs.Numbered.{canonical_node, seen_unknowns, seen_variables};

use crate::put::{Terms, Times, put_node};
use crate::seen::{see_unknowns, see_variables};
use lps_meaning::Node;
use std::alloc::{AllocError, Global};

/// A node in canonical numbers, and how many variables and unknown times it has.
#[derive(Drop)]
pub struct Numbered {
    pub node: Node,
    pub variables: usize,
    pub unknowns: usize,
}

/// The node with its variables and unknown times numbered from 0 by where they first occur. An error comes where memory runs
/// out, or no number is left for a variable.
#[tactic(auto, using(crate::proofs::Renumbering::is_canonical, crate::proofs::Timing::timed_in_numbers))]
pub fn in_numbers(alloc: Global, node: &Node) -> Result<Numbered, AllocError>
    ensures node { IfOk result (λ found. found.node ≡ canonical_node node.now) }
    ensures canonical { IfOk result (λ found. IsCanonical (left_in found.node)) }
    ensures variables { IfOk result (λ found. found.variables ≡ length (seen_variables node.now)) }
    ensures unknowns { IfOk result (λ found. found.unknowns ≡ length (seen_unknowns node.now)) }
    ensures timed { IfOk result (λ found. (count : ℕ) → IsTimed count node.now → IsTimed found.unknowns found.node) }
{
    let mut variables = Vec::new(alloc);
    see_variables(node, &mut variables)?;
    let variables = variables;
    let mut unknowns = Vec::new(alloc);
    see_unknowns(node, &mut unknowns)?;
    let unknowns = unknowns;
    let terms = Terms::Numbered(variables.as_slice());
    let times = Times::Numbered(unknowns.as_slice());
    Ok(Numbered {
        node: put_node(alloc, terms, times, node)?,
        variables: variables.len(),
        unknowns: unknowns.len(),
    })
}
