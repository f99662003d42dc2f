//! The constraints whose times are all known: they are tested, and then left out.
ghost use Rattle.std.specs.Prelude.{◌≡◌, ◌↔◌, IfOk, IsTrue, MatchOption, false, true};
ghost use Rattle.std.specs.List.{AllByRecursion, filter};
ghost use Rattle.lps_meaning.specs.Sequences.{Relates};
ghost use Rattle.lps_nodes.specs.Conditions.{IsLeftLimit};
ghost use Rattle.lps_residual.specs.Limits.{HasFalse, IsOpenOrTrue, is_open, with_limits};
ghost use Rattle.lps_windows.specs.Bounds.{IsShort};

use lps_meaning::{LeftCon, Node, When};
use lps_terms::TimeRel;
use sqlite_items::Items;
use std::alloc::{AllocError, Global};

/// The node without the constraints whose times are all known; none where one of these is false.
pub fn tested(alloc: Global, mut node: Node) -> Result<Option<Node>, AllocError>
    requires { AllByRecursion IsShort node.limits }
    ensures { IfOk result (λ found. MatchOption found (HasFalse node.limits) (λ left. (left ≡ with_limits node (filter is_open node.limits)) × AllByRecursion IsOpenOrTrue node.limits)) }
{
    match open_limits(alloc, node.limits.as_slice())? {
        None => Ok(None),
        Some(limits) => {
            node.limits = Items::from_vec(limits);
            Ok(Some(node))
        }
    }
}

/// The constraints that name an unknown time, where all others are true.
fn open_limits(alloc: Global, limits: &[LeftCon]) -> Result<Option<Vec<LeftCon>>, AllocError>
    requires { AllByRecursion IsShort limits.now }
    ensures { IfOk result (λ found. MatchOption found (HasFalse limits.now) (λ kept. (kept.items ≡ filter is_open limits.now) × AllByRecursion IsOpenOrTrue limits.now)) }
{
    let mut kept = Vec::new(alloc);
    for limit in limits {
        match known(limit) {
            None => kept.push(*limit)?,
            Some(true) => {}
            Some(false) => return Ok(None),
        }
    }
    Ok(Some(kept))
}

/// Whether the constraint is true, where both its times are known.
fn known(limit: &LeftCon) -> Option<bool>
    requires { IsShort limit.now }
    ensures { MatchOption result (is_open limit.now ≡ true) (λ holds. (is_open limit.now ≡ false) × (IsTrue holds ↔ IsLeftLimit (λ k. 0) limit.now)) }
{
    match (limit.left, limit.right) {
        (When::Known(left), When::Known(right)) => {
            Some(relates(limit.rel, left as i64, right as i64 + limit.plus))
        }
        (When::Known(_), When::Unknown(_)) => None,
        (When::Unknown(_), _) => None,
    }
}

fn relates(rel: TimeRel, left: i64, right: i64) -> bool
    ensures { IsTrue result ↔ Relates rel left right }
{
    match rel {
        TimeRel::Less => left < right,
        TimeRel::AtMost => left <= right,
        TimeRel::Equal => left == right,
        TimeRel::AtLeast => left >= right,
        TimeRel::Greater => left > right,
    }
}
