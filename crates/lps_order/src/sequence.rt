ghost use Rattle.std.specs.Prelude.{◌≡◌, ◌&&◌, [], IfOk, None, is_some};
ghost use Rattle.lps_terms.specs.declared.item.Item.{Item as Piece};
ghost use Rattle.lps_model.specs.Declarations.{kind_among};
ghost use Rattle.lps_model.specs.Order.{has_mixed, is_ordered, step_of};
ghost use Rattle.lps_order.specs.Walking.{begin_of, end_with, ends_after, follows, mixes};

use crate::happening::{are_mixed, happening_in};
use crate::walk::Walk;
use lps_model::Kinds;
use lps_terms::Item;
use std::alloc::{AllocError, Global};

/// Whether an antecedent or a macro body is in order.
#[tactic(auto, using(crate::proofs::Walks::follows_where_ordered))]
pub(crate) fn is_ordered(alloc: Global, items: &[Item], kinds: &Kinds) -> Result<bool, AllocError>
    ensures { IfOk result (λ right. right ≡ is_ordered (kind_among kinds.now) items.now) }
{
    follows(alloc, &[], None, items, kinds)
}

/// Whether items have a step and are in order where these times have occurred and the step before ended then.
pub(crate) fn follows(
    alloc: Global,
    occurred: &[u32],
    before: Option<u32>,
    items: &[Item],
    kinds: &Kinds,
) -> Result<bool, AllocError>
    ensures { IfOk result (λ right. right ≡ follows (kind_among kinds.now) occurred.now before items.now) }
{
    if begin_of(items).is_none() {
        return Ok(false);
    }
    let mut walk = Walk {
        occurred: Vec::from_slice(alloc, occurred)?,
        before,
        prior: None,
    };
    walk.walks(items, kinds)
}

/// When the first step begins.
pub(crate) fn begin_of(items: &[Item]) -> Option<u32>
    ensures { result ≡ begin_of items.now }
{
    for item in items {
        match item {
            Item::At(_, time) => return Some(time.0),
            Item::Span(_, from, _) => return Some(from.0),
            _ => {}
        }
    }
    None
}

/// When the last step ends.
pub(crate) fn end_of(items: &[Item]) -> Option<u32>
    ensures { result ≡ ends_after None items.now }
{
    let mut end = None;
    for item in items {
        end = end_with(end, item);
    }
    end
}

fn end_with(before: Option<u32>, item: &Item) -> Option<u32>
    ensures { result ≡ end_with before (step_of item.now) }
{
    match item {
        Item::At(_, time) => Some(time.0),
        Item::Span(_, _, to) => Some(to.0),
        _ => before,
    }
}

/// Whether a sequence has a group with both an event and an action: two that stand next to each other.
#[tactic(auto, using(crate::proofs::Groups::mixes_where_mixed))]
pub(crate) fn has_mixed(items: &[Item], kinds: &Kinds) -> bool
    ensures { result ≡ has_mixed (kind_among kinds.now) items.now }
{
    mixes(items, kinds)
}

fn mixes(items: &[Item], kinds: &Kinds) -> bool
    ensures { result ≡ mixes (kind_among kinds.now) None items.now }
{
    let mut prior = None;
    for item in items {
        let now = happening_in(item, kinds);
        if are_mixed(prior, now) {
            return true;
        }
        prior = now;
    }
    false
}
