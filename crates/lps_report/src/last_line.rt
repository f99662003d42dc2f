ghost use Rattle.std.specs.Prelude.{◌≡◌, ◌++◌, codes, OnOk};
ghost use Rattle.std.specs.Fmt.{decimal};
ghost use Rattle.lps_meaning.specs.Reports.{last_line as last_line_of};

use crate::number::print_number;
use lps_meaning::Counts;
use std::alloc::AllocError;

/// Appends the line `open P failed F cut C`.
fn print_open(counts: Counts, out: &mut Vec<u8>) -> Result<(), AllocError>
    ensures { OnOk result (out.new.items ≡ out.old.items ++ (codes "open " ++ decimal counts.pending ++ codes " failed " ++ decimal counts.failed ++ codes " cut " ++ decimal counts.cut ++ codes "\n")) }
{
    out.extend_from_slice(b"open ")?;
    print_number(counts.pending, out)?;
    out.extend_from_slice(b" failed ")?;
    print_number(counts.failed, out)?;
    out.extend_from_slice(b" cut ")?;
    print_number(counts.cut, out)?;
    out.extend_from_slice(b"\n")
}

/// Appends the last line of a report, which tells how many goals are not solved: `done` where there are none, else
/// `open P failed F cut C`. The error is that memory ran out; some of the line may then be appended.
pub fn print_last_line(counts: Counts, out: &mut Vec<u8>) -> Result<(), AllocError>
    ensures { OnOk result (out.new.items ≡ out.old.items ++ last_line_of counts) }
{
    if counts.pending == 0 && counts.failed == 0 && counts.cut == 0 {
        out.extend_from_slice(b"done\n")
    } else {
        print_open(counts, out)
    }
}
