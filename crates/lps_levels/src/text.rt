ghost use Rattle.std.specs.Prelude.{◌≡◌, length, IfSome, MatchResult, None};
ghost use Rattle.lps_model.specs.KindRefusals.{kind_refusal};
ghost use Rattle.lps_model.specs.Levels.{AreLevelsOf};
ghost use Rattle.lps_model.specs.Program.{declarations};
ghost use Rattle.lps_levels.specs.Graphs.{AreApart};
ghost use Rattle.lps_levels.specs.Answers.{AreInTable, IsNoMemory, IsRightError};

use crate::calls::calls;
use crate::judge::{Answer, judge};
use crate::names::called_names;
use lps_model::{JudgeError, Kinds, Levels};
use lps_terms::{Name, Refused, Text};
use sqlite_items::Items;
use std::alloc::Global;

/// The levels of a text whose names stand where their kinds may, and whose declarations `kinds` has: one for each timeless,
/// derived and macro name, such that no call goes to a higher level and each strict call to a lower one.
///
/// `Refused` comes exactly where there are no such levels. Its reason is `Unlevelled`, with the first strict call of the text
/// that lies on a cycle: the name that calls, then the least way back from the name that is called, of the shortest ones the
/// least in byte order. `NoMemory` comes where memory ran out, or where more than 2^32 names have levels.
pub fn levels(alloc: Global, text: &Text, kinds: &Kinds) -> Result<Levels, JudgeError>
    requires declared { kinds.now ≡ declarations text.now }
    requires placed { kind_refusal text.now ≡ None }
    ensures { MatchResult result (AreLevelsOf text.now) (IsRightError text.now) }
{
    let names = called_names(alloc, text, kinds)?;
    let edges = calls(alloc, &names, kinds, text.statements.as_slice())?;
    match judge(alloc, names.as_slice(), edges.as_slice())? {
        Answer::Levelled(levels) => table(alloc, names.as_slice(), levels.as_slice()),
        Answer::Cyclic(cycle) => {
            let cycle = Items::from_vec(cycle);
            Err(JudgeError::Refused(Refused::Unlevelled { cycle }))
        }
    }
}

/// The table of the levels of names.
fn table(alloc: Global, names: &[Name], levels: &[usize]) -> Result<Levels, JudgeError>
    requires sized { length levels.now ≡ length names.now }
    requires apart { AreApart names.now }
    ensures { MatchResult result (AreInTable names.now levels.now) IsNoMemory }
{
    let mut table = Levels::new(alloc);
    for number in 0..names.len() {
        let Some(level) = fitting(levels[number]) else {
            return Err(JudgeError::NoMemory);
        };
        table.insert(alloc, &names[number], level)?;
    }
    Ok(table)
}

/// A level as a table has it, where it fits.
fn fitting(level: usize) -> Option<u32>
    ensures { IfSome result (λ fitting. fitting ≡ level) }
{
    u32::try_from(level).ok()
}
