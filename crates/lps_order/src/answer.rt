ghost use Rattle.std.specs.Prelude.{◌≡◌, None, IfOk, MatchResult};
ghost use Rattle.lps_model.specs.Declarations.{kind_among};
ghost use Rattle.lps_model.specs.Order.{first_line, has_bad_head_times, is_mixed_somewhere, is_out_of_order, order_refusal};
ghost use Rattle.lps_order.specs.Answers.{IsRightError};

use crate::body::{has_bad_head_times, is_mixed_somewhere, is_out_of_order};
use lps_model::{JudgeError, Kinds};
use lps_terms::{Refused, Statement, Text};
use std::alloc::{AllocError, Global};

/// Whether the times of a text are in order, where `kinds` has the declarations of the text.
///
/// The answer is the first of these three refusals that stands anywhere, with the line of the first statement where it
/// does: `OutOfOrder`, where a sequence or a denial breaks the order of times; `MixedGroup`, where a group of a consequent
/// or a macro body has both an event and an action; `BadHeadTimes`, where the times of a macro clause are not the begin of
/// its first step and the end of its last. `NoMemory` may come at any time and says nothing of the text.
pub fn ordered(alloc: Global, text: &Text, kinds: &Kinds) -> Result<(), JudgeError>
    ensures { MatchResult result (λ _. order_refusal (kind_among kinds.now) text.now.statements ≡ None) (IsRightError (kind_among kinds.now) text.now.statements) }
{
    match refusal(alloc, text.statements.as_slice(), kinds)? {
        Some(refused) => Err(JudgeError::Refused(refused)),
        None => Ok(()),
    }
}

fn refusal(
    alloc: Global,
    statements: &[Statement],
    kinds: &Kinds,
) -> Result<Option<Refused>, AllocError>
    ensures { IfOk result (λ found. found ≡ order_refusal (kind_among kinds.now) statements.now) }
{
    if let Some(line) = first_out_of_order(alloc, statements, kinds)? {
        return Ok(Some(Refused::OutOfOrder { line }));
    }
    if let Some(line) = first_mixed(statements, kinds) {
        return Ok(Some(Refused::MixedGroup { line }));
    }
    if let Some(line) = first_bad_head_times(statements, kinds) {
        return Ok(Some(Refused::BadHeadTimes { line }));
    }
    Ok(None)
}

fn first_out_of_order(
    alloc: Global,
    statements: &[Statement],
    kinds: &Kinds,
) -> Result<Option<u32>, AllocError>
    ensures { IfOk result (λ line. line ≡ first_line (is_out_of_order (kind_among kinds.now)) statements.now) }
{
    for statement in statements {
        if is_out_of_order(alloc, &statement.body, kinds)? {
            return Ok(Some(statement.line));
        }
    }
    Ok(None)
}

fn first_mixed(statements: &[Statement], kinds: &Kinds) -> Option<u32>
    ensures { result ≡ first_line (is_mixed_somewhere (kind_among kinds.now)) statements.now }
{
    for statement in statements {
        if is_mixed_somewhere(&statement.body, kinds) {
            return Some(statement.line);
        }
    }
    None
}

fn first_bad_head_times(statements: &[Statement], kinds: &Kinds) -> Option<u32>
    ensures { result ≡ first_line (has_bad_head_times (kind_among kinds.now)) statements.now }
{
    for statement in statements {
        if has_bad_head_times(&statement.body, kinds) {
            return Some(statement.line);
        }
    }
    None
}
