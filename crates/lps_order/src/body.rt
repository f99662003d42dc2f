ghost use Rattle.std.specs.Prelude.{◌≡◌, ◌&&◌, IfOk, map};
ghost use Rattle.std.specs.List.{list_all, list_any};
ghost use Rattle.lps_terms.specs.declared.item.Item.{Item as Piece};
ghost use Rattle.lps_model.specs.Declarations.{kind_among};
ghost use Rattle.lps_model.specs.Order.{has_bad_head_times, has_head_times, has_mixed, is_mixed_somewhere, is_ordered, is_ordered_after, is_out_of_order, steps};
ghost use Rattle.lps_order.specs.Walking.{follows};

use crate::denial::is_denial_ordered;
use crate::sequence::{begin_of, end_of, follows, has_mixed, is_ordered};
use crate::times::times_in;
use crate::walk::is_time;
use lps_model::Kinds;
use lps_terms::{Body, Item};
use sqlite_items::Items;
use std::alloc::{AllocError, Global};

/// Whether a statement breaks the order of times.
pub(crate) fn is_out_of_order(alloc: Global, body: &Body, kinds: &Kinds) -> Result<bool, AllocError>
    ensures { IfOk result (λ wrong. wrong ≡ is_out_of_order (kind_among kinds.now) body.now) }
{
    match body {
        Body::Rule {
            antecedent,
            alternatives,
        } => {
            let right = is_rule_ordered(
                alloc,
                antecedent.as_slice(),
                alternatives.as_slice(),
                kinds,
            )?;
            Ok(!right)
        }
        Body::Denial(items) => Ok(!is_denial_ordered(items.as_slice())),
        Body::MacroClause { items, .. } => {
            let right = is_ordered(alloc, items.as_slice(), kinds)?;
            Ok(!right)
        }
        _ => Ok(false),
    }
}

#[tactic(auto, using(crate::proofs::Walks::all_follow_where_ordered))]
fn is_rule_ordered(
    alloc: Global,
    antecedent: &[Item],
    alternatives: &[Items<Item>],
    kinds: &Kinds,
) -> Result<bool, AllocError>
    ensures { IfOk result (λ right. right ≡ (is_ordered (kind_among kinds.now) antecedent.now && list_all (is_ordered_after (kind_among kinds.now) antecedent.now) alternatives.now)) }
{
    if !is_ordered(alloc, antecedent, kinds)? {
        return Ok(false);
    }
    let occurred = times_in(alloc, antecedent)?;
    all_follow(
        alloc,
        occurred.as_slice(),
        end_of(antecedent),
        alternatives,
        kinds,
    )
}

/// Whether each alternative is in order where these times have occurred and the step before ended then.
fn all_follow(
    alloc: Global,
    occurred: &[u32],
    before: Option<u32>,
    alternatives: &[Items<Item>],
    kinds: &Kinds,
) -> Result<bool, AllocError>
    ensures { IfOk result (λ right. right ≡ list_all (follows (kind_among kinds.now) occurred.now before) alternatives.now) }
{
    for alternative in alternatives {
        if !follows(alloc, occurred, before, alternative.as_slice(), kinds)? {
            return Ok(false);
        }
    }
    Ok(true)
}

/// Whether a group of a consequent or a macro body has both an event and an action.
pub(crate) fn is_mixed_somewhere(body: &Body, kinds: &Kinds) -> bool
    ensures { result ≡ is_mixed_somewhere (kind_among kinds.now) body.now }
{
    match body {
        Body::Rule { alternatives, .. } => is_some_mixed(alternatives.as_slice(), kinds),
        Body::MacroClause { items, .. } => has_mixed(items.as_slice(), kinds),
        _ => false,
    }
}

fn is_some_mixed(alternatives: &[Items<Item>], kinds: &Kinds) -> bool
    ensures { result ≡ list_any (has_mixed (kind_among kinds.now)) alternatives.now }
{
    for alternative in alternatives {
        if has_mixed(alternative.as_slice(), kinds) {
            return true;
        }
    }
    false
}

/// Whether a macro clause has other times than its first and its last step.
pub(crate) fn has_bad_head_times(body: &Body, kinds: &Kinds) -> bool
    ensures { result ≡ has_bad_head_times (kind_among kinds.now) body.now }
{
    match body {
        Body::MacroClause {
            begin,
            end,
            items,
            ..
        } => !has_head_times(items.as_slice(), kinds, begin.0, end.0),
        _ => false,
    }
}

#[tactic(auto, using(crate::proofs::Walks::has_head_times_where_read))]
fn has_head_times(items: &[Item], kinds: &Kinds, begin: u32, end: u32) -> bool
    ensures { result ≡ has_head_times (steps (kind_among kinds.now) items.now) begin end }
{
    is_time(begin_of(items), begin) && is_time(end_of(items), end)
}
