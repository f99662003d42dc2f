ghost use Rattle.std.specs.Prelude.{◌≡◌, None, Some, IfOk, MatchResult};
ghost use Rattle.lps_model.specs.Known.{statements_unknown, unknown_of};
ghost use Rattle.lps_model.specs.Program.{declarations};
ghost use Rattle.lps_modes.specs.Answers.{IsFirstUnknown};

use crate::statements::unknown_in_statement;
use lps_model::{JudgeError, Kinds};
use lps_terms::{Refused, Statement, Text};
use std::alloc::{AllocError, Global};

/// The refusal of the first statement that has an unknown variable.
fn first_unknown(
    alloc: Global,
    kinds: &Kinds,
    statements: &[Statement],
) -> Result<Option<Refused>, AllocError>
    ensures { IfOk result (λ refused. refused ≡ statements_unknown kinds.now statements.now) }
{
    for statement in statements {
        if let Some(var) = unknown_in_statement(alloc, kinds, statement)? {
            let line = statement.line;
            return Ok(Some(Refused::Unknown { line, var }));
        }
    }
    Ok(None)
}

/// Whether each variable of a text is known where it must be, given the text's declarations. `Refused` has the line of the
/// first statement where one is not, and the written name of the leftmost one that its first failing item needs; a time of
/// a constraint that stands in no step counts as one. `NoMemory` comes where memory runs out.
pub fn modes(alloc: Global, text: &Text, kinds: &Kinds) -> Result<(), JudgeError>
    requires { kinds.now ≡ declarations text.now }
    ensures { MatchResult result (λ _. unknown_of text.now ≡ None) (IsFirstUnknown text.now) }
{
    let unknown = first_unknown(alloc, kinds, text.statements.as_slice())?;
    match unknown {
        Some(refused) => Err(JudgeError::Refused(refused)),
        None => Ok(()),
    }
}
