//! The rules of a text, and what an antecedent shares with its alternatives.
ghost use Rattle.std.specs.Prelude.{◌≡◌, IfOk, OnOk, length, nat_lt};
ghost use Rattle.std.specs.List.{filter, flat_map};
ghost use Rattle.lps_meaning.specs.Goals.{shared_times, shared_values};
ghost use Rattle.lps_model.specs.Order.{times_of};
ghost use Rattle.lps_model.specs.Rules.{numbered, rule_in, rules};
ghost use Rattle.lps_model.specs.VariableLists.{item_vars};
ghost use Rattle.lps_unify.specs.Canonical.{first_seen, place_of};
ghost use Rattle.lps_seq.specs.Starts.{found_rule, rule_of, rules_found};

use lps_residual::{place_of, see_items, see_times};
use lps_terms::{Body, Item, Text};
use sqlite_items::Items;
use std::alloc::{AllocError, Global};

/// A reactive rule.
#[derive(Clone, Copy)]
pub(crate) struct Rule<'a> {
    pub antecedent: &'a [Item],
    pub alternatives: &'a [Items<Item>],
}

/// The rule of this number, from 1 in text order.
pub(crate) fn rule_at(text: &Text, number: u32) -> Option<Rule<'_>>
    ensures { found_rule result ≡ numbered (rules text.now) number }
{
    let mut left = number.checked_sub(1)?;
    for statement in text.statements.as_slice() {
        if let Some(rule) = rule_in(&statement.body) {
            if left == 0 {
                return Some(rule);
            }
            left -= 1;
        }
    }
    None
}

fn rule_in(body: &Body) -> Option<Rule<'_>>
    ensures { rules_found (found_rule result) ≡ rule_in body.now }
{
    match body {
        Body::Rule {
            antecedent,
            alternatives,
        } => Some(Rule {
            antecedent: antecedent.as_slice(),
            alternatives: alternatives.as_slice(),
        }),
        _ => None,
    }
}

/// The variables that stand in the antecedent and in some alternative, each where it first occurs.
pub(crate) fn shared_values(alloc: Global, rule: Rule<'_>) -> Result<Vec<u32>, AllocError>
    ensures { IfOk result (λ shared. shared.items ≡ shared_values (rule_of rule.entry)) }
{
    let mut shared = Vec::new(alloc);
    see_items(rule.antecedent, &mut shared)?;
    let mut others = Vec::new(alloc);
    see_alternatives(rule.alternatives, &mut others)?;
    Ok(common(shared, others.as_slice()))
}

fn see_alternatives(alternatives: &[Items<Item>], seen: &mut Vec<u32>) -> Result<(), AllocError>
    ensures { OnOk result (seen.new.items ≡ first_seen seen.old.items (flat_map (flat_map item_vars) alternatives.now)) }
{
    for items in alternatives {
        see_items(items.as_slice(), seen)?;
    }
    Ok(())
}

/// The same of times.
pub(crate) fn shared_times(alloc: Global, rule: Rule<'_>) -> Result<Vec<u32>, AllocError>
    ensures { IfOk result (λ shared. shared.items ≡ shared_times (rule_of rule.entry)) }
{
    let mut shared = Vec::new(alloc);
    see_times(rule.antecedent, &mut shared)?;
    let mut others = Vec::new(alloc);
    see_alternative_times(rule.alternatives, &mut others)?;
    Ok(common(shared, others.as_slice()))
}

fn see_alternative_times(
    alternatives: &[Items<Item>],
    seen: &mut Vec<u32>,
) -> Result<(), AllocError>
    ensures { OnOk result (seen.new.items ≡ first_seen seen.old.items (flat_map (flat_map times_of) alternatives.now)) }
{
    for items in alternatives {
        see_times(items.as_slice(), seen)?;
    }
    Ok(())
}

/// Those that are among the others.
fn common(mut shared: Vec<u32>, others: &[u32]) -> Vec<u32>
    ensures { result.items ≡ filter (λ v. nat_lt (place_of others.now v) (length others.now)) shared.items }
{
    shared.retain(|number| is_among(others, *number));
    shared
}

fn is_among(others: &[u32], number: u32) -> bool
    ensures { result ≡ nat_lt (place_of others.now number) (length others.now) }
{
    place_of(others, number) < others.len()
}
