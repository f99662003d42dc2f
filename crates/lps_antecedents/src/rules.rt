//! How many rules a text has.
ghost use Rattle.std.specs.Prelude.{◌≡◌, IfOk, if◌then◌else◌, length};
ghost use Rattle.lps_model.specs.Rules.{rule_in, rules};

use lps_terms::{Body, Text};
use std::alloc::AllocError;

/// The number of the rules of a text, where there is one for it.
pub(crate) fn rule_count(text: &Text) -> Result<u32, AllocError>
    ensures { IfOk result (λ count. count ≡ length (rules text.now)) }
{
    u32::try_from(count_of_rules(text)).or(Err(AllocError))
}

fn count_of_rules(text: &Text) -> usize
    ensures { result ≡ length (rules text.now) }
{
    let mut count = 0;
    for statement in text.statements.as_slice() {
        if is_rule(&statement.body) {
            count += 1;
        }
    }
    count
}

fn is_rule(body: &Body) -> bool
    ensures { (if result then 1 else 0) ≡ length (rule_in body.now) }
{
    matches!(body, Body::Rule { .. })
}
