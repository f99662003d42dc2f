ghost use Rattle.std.specs.Prelude.{◌≡◌, ◌++◌, OnOk};
ghost use Rattle.std.specs.List.{flat_map};
ghost use Rattle.lps_meaning.specs.Reports.{pick_line};

use crate::listed::print_atoms;
use crate::number::print_number;
use lps_model::Pick;
use std::alloc::AllocError;

/// Appends the line of one pick.
fn print_pick(pick: &Pick, out: &mut Vec<u8>) -> Result<(), AllocError>
    ensures { OnOk result (out.new.items ≡ out.old.items ++ pick_line pick.now) }
{
    out.extend_from_slice(b"do ")?;
    print_atoms(pick.group.atoms.as_slice(), out)?;
    out.extend_from_slice(b" for ")?;
    print_number(pick.goal, out)?;
    out.extend_from_slice(b"\n")
}

/// Appends a line for each pick, in order.
pub(crate) fn print_picks(picks: &[Pick], out: &mut Vec<u8>) -> Result<(), AllocError>
    ensures { OnOk result (out.new.items ≡ out.old.items ++ flat_map pick_line picks.now) }
{
    for pick in picks {
        print_pick(pick, out)?;
    }
    Ok(())
}
