ghost use Rattle.std.specs.Prelude.{◌≡◌, IsTrue, MatchResult};
ghost use Rattle.lps_model.specs.Acceptance.{IsAccepted};
ghost use Rattle.lps_model.specs.Formed.{is_formed};
ghost use Rattle.lps_accept.specs.Answers.{IsRightError};

use lps_kinds::kinds;
use lps_levels::levels;
use lps_model::{Accepted, JudgeError};
use lps_modes::modes;
use lps_order::ordered;
use lps_terms::Text;
use std::alloc::Global;

/// The text with its declarations and levels, where it is accepted.
///
/// `Refused` comes exactly where it is not. The first of these that stands anywhere in the text is the reason, at the first
/// statement where it stands: `Undeclared`, `DeclaredTwice`, `WrongArity`, `WrongKind`, `NotGround`, `NoEvent`, `OutOfOrder`,
/// `MixedGroup`, `BadHeadTimes`, `Unknown`, `Unlevelled`. `NoMemory` comes where memory ran out.
pub fn accept(alloc: Global, text: Text) -> Result<Accepted, JudgeError>
    requires { IsTrue (is_formed text) }
    ensures { MatchResult result (λ accepted. (accepted ≡ text) × IsAccepted text) (IsRightError text) }
{
    let kinds = kinds(alloc, &text)?;
    ordered(alloc, &text, &kinds)?;
    modes(alloc, &text, &kinds)?;
    let levels = levels(alloc, &text, &kinds)?;
    Ok(Accepted::adopt(text, kinds, levels))
}
