ghost use Rattle.std.specs.Prelude.{◌≡◌, ◌++◌, codes, false, OnOk};
ghost use Rattle.std.specs.Fmt.{decimal};
ghost use Rattle.lps_facts.specs.Facts.{members};
ghost use Rattle.lps_terms.specs.Printed.{listed_from};
ghost use Rattle.lps_meaning.specs.Reports.{block_text};

use crate::goals::{print_closed, print_created};
use crate::number::print_number;
use crate::picks::print_picks;
use crate::verdicts::print_verdicts;
use lps_facts::Facts;
use lps_meaning::{Closed, GoalId, NewGoal};
use lps_model::Cycle;
use std::alloc::AllocError;

/// What is reported of a cycle, lent to be printed.
#[derive(Clone, Copy)]
pub struct Block<'a> {
    /// The number of the cycle, from 0.
    pub number: u64,
    /// The events of the cycle with their verdicts, and what was picked.
    pub cycle: &'a Cycle,
    /// The state after the cycle.
    pub facts: &'a Facts,
    /// The goals that are new in the cycle, by number.
    pub created: &'a [NewGoal],
    /// The goals that were closed in the cycle, by number.
    pub closed: &'a [(GoalId, Closed)],
}

/// Appends the first line of a block.
fn print_head(number: u64, out: &mut Vec<u8>) -> Result<(), AllocError>
    ensures { OnOk result (out.new.items ≡ out.old.items ++ (codes "cycle " ++ decimal number ++ codes "\n")) }
{
    out.extend_from_slice(b"cycle ")?;
    print_number(number, out)?;
    out.extend_from_slice(b"\n")
}

/// Appends the line of a state.
fn print_state(facts: &Facts, out: &mut Vec<u8>) -> Result<(), AllocError>
    ensures { OnOk result (out.new.items ≡ out.old.items ++ (codes "state" ++ listed_from false (members facts.now) ++ codes "\n")) }
{
    out.extend_from_slice(b"state")?;
    facts.print(out)?;
    out.extend_from_slice(b"\n")
}

impl<'a> Block<'a> {
    /// Appends the block: the number of the cycle, a line for each event and each pick, the state, and a line for each goal
    /// that is new or was closed. The error is that memory ran out; some of the block may then be appended.
    pub fn print(&self, out: &mut Vec<u8>) -> Result<(), AllocError>
        ensures { OnOk result (out.new.items ≡ out.old.items ++ block_text self.now.number (record {
          cycle = self.now.cycle.now;
          facts = members self.now.facts.now;
          created = self.now.created.now;
          closed = self.now.closed.now;
        })) }
    {
        print_head(self.number, out)?;
        print_verdicts(
            self.cycle.events.as_slice(),
            self.cycle.verdicts.as_slice(),
            out,
        )?;
        print_picks(self.cycle.picks.as_slice(), out)?;
        print_state(self.facts, out)?;
        print_created(self.created, out)?;
        print_closed(self.closed, out)
    }
}
