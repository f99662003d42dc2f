ghost use Rattle.std.specs.Prelude.{◌≡◌, IfOk, MatchResult, None};
ghost use Rattle.lps_model.specs.KindRefusals.{kind_refusal, name_refusal as name_refusal_of};
ghost use Rattle.lps_model.specs.Occurrences.{occurrences as occurrences_of};
ghost use Rattle.lps_model.specs.Program.{declarations};
ghost use Rattle.lps_kinds.specs.Answer.{IsRightError};

use crate::fault::{Fault, first_refusal};
use crate::occurrences::occurrences;
use crate::statements::statement_refusal;
use crate::twice::declared_twice;
use lps_model::{JudgeError, Kinds, Occurrence};
use lps_terms::{Refused, Text};
use std::alloc::{AllocError, Global};

/// The declarations of a text in which each predicate is declared, once, and stands with its number of arguments where its
/// kind may stand; whose facts of the start hold no variable; and of which each denial has an event.
///
/// `Refused` comes exactly where the text is none such. The first of these that stands anywhere in the text is the reason, at
/// the first statement where it stands, with the line of that statement and the leftmost such name in it: `Undeclared`,
/// `DeclaredTwice`, `WrongArity`, `WrongKind`, `NotGround`, `NoEvent`. `NoMemory` comes where memory ran out.
pub fn kinds(alloc: Global, text: &Text) -> Result<Kinds, JudgeError>
    ensures declarations { MatchResult result (λ kinds. kinds ≡ declarations text.now) (λ error. Unit {0}) }
    ensures refusal { MatchResult result (λ kinds. kind_refusal text.now ≡ None) (IsRightError text.now) }
{
    let kinds = Kinds::of(alloc, text)?;
    match refusal(alloc, &kinds, text)? {
        Some(refused) => Err(JudgeError::Refused(refused)),
        None => Ok(kinds),
    }
}

/// The refusal of a text that has these declarations.
fn refusal(alloc: Global, kinds: &Kinds, text: &Text) -> Result<Option<Refused>, AllocError>
    requires { kinds.now ≡ declarations text.now }
    ensures { IfOk result (λ found. found ≡ kind_refusal text.now) }
{
    let occurrences = occurrences(alloc, kinds, text)?;
    match name_refusal(alloc, kinds, text, occurrences.as_slice())? {
        Some(refused) => Ok(Some(refused)),
        None => Ok(statement_refusal(text.statements.as_slice())),
    }
}

/// The refusal of a name, in order of the reasons.
fn name_refusal(
    alloc: Global,
    kinds: &Kinds,
    text: &Text,
    occurrences: &[Occurrence],
) -> Result<Option<Refused>, AllocError>
    ensures { IfOk result (λ found. found ≡ name_refusal_of text.now kinds.now occurrences.now) }
{
    if let Some(refused) = first_refusal(alloc, Fault::Undeclared, kinds, occurrences)? {
        return Ok(Some(refused));
    }
    if let Some(refused) = declared_twice(alloc, text)? {
        return Ok(Some(refused));
    }
    if let Some(refused) = first_refusal(alloc, Fault::WrongArity, kinds, occurrences)? {
        return Ok(Some(refused));
    }
    first_refusal(alloc, Fault::WrongKind, kinds, occurrences)
}
