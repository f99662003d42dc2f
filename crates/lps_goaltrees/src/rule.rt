//! How many alternatives a rule of a text has.
ghost use Rattle.std.specs.Prelude.{◌≡◌, [], ◌∷◌, IfOk, MatchOption, Some, length};
ghost use Rattle.lps_model.specs.Rules.{Rule, numbered, rule_in, rules};

use lps_terms::{Body, Text};
use std::alloc::AllocError;

/// How many alternatives the rule with this number has, from 1 in text order. An error comes where there are too many to number
/// them.
pub(crate) fn alternatives_of(text: &Text, number: u32) -> Result<u32, AllocError>
    ensures { IfOk result (λ count. (rule : Rule) → numbered (rules text.now) number ≡ Some rule → count ≡ length rule.alternatives) }
{
    let count = count_of(text, number);
    u32::try_from(count).or(Err(AllocError))
}

fn count_of(text: &Text, number: u32) -> usize
    ensures { (rule : Rule) → numbered (rules text.now) number ≡ Some rule → result ≡ length rule.alternatives }
{
    let mut left = number;
    for statement in text.statements.as_slice() {
        if let Some(count) = alternatives_in(&statement.body) {
            if left == 1 {
                return count;
            }
            left = left.saturating_sub(1);
        }
    }
    0
}

/// How many alternatives a statement has, where it is a rule.
fn alternatives_in(body: &Body) -> Option<usize>
    ensures { MatchOption result (rule_in body.now ≡ []) (λ count. (rule : Rule) × (rule_in body.now ≡ rule ∷ []) × (count ≡ length rule.alternatives)) }
{
    match body {
        Body::Rule {
            antecedent: _,
            alternatives,
        } => Some(alternatives.len()),
        _ => None,
    }
}
