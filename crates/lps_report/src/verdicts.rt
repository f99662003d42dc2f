ghost use Rattle.std.specs.Prelude.{◌≡◌, ◌++◌, OnOk};
ghost use Rattle.lps_model.specs.Report.{verdict_line, verdict_lines};

use crate::number::print_number;
use lps_model::Verdict;
use lps_terms::{Atom, print_atom};
use std::alloc::AllocError;

/// Appends the line of one event.
fn print_verdict(event: &Atom, verdict: Verdict, out: &mut Vec<u8>) -> Result<(), AllocError>
    ensures { OnOk result (out.new.items ≡ out.old.items ++ verdict_line event.now verdict) }
{
    match verdict {
        Verdict::Admitted => {
            out.extend_from_slice(b"admit ")?;
            print_atom(event, out)?;
        }
        Verdict::Rejected(denial) => {
            out.extend_from_slice(b"reject ")?;
            print_atom(event, out)?;
            out.extend_from_slice(b" by ")?;
            print_number(denial as u64, out)?;
        }
    }
    out.extend_from_slice(b"\n")
}

/// Appends a line for each event, in order.
pub(crate) fn print_verdicts(
    events: &[Atom],
    verdicts: &[Verdict],
    out: &mut Vec<u8>,
) -> Result<(), AllocError>
    ensures { OnOk result (out.new.items ≡ out.old.items ++ verdict_lines events.now verdicts.now) }
{
    for (i, event) in events.iter().enumerate() {
        match verdicts.get(i) {
            Some(verdict) => print_verdict(event, *verdict, out)?,
            None => return Ok(()),
        }
    }
    Ok(())
}
