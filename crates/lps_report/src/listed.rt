ghost use Rattle.std.specs.Prelude.{◌≡◌, ◌++◌, codes, false, map, OnOk};
ghost use Rattle.std.specs.Fmt.{decimal};
ghost use Rattle.lps_terms.specs.Printed.{atom_text, printed};
ghost use Rattle.lps_meaning.specs.Reports.{listed};
ghost use Rattle.lps_report.specs.Listed.{lead, led_from};

use crate::number::print_number;
use lps_terms::{Atom, Term, print_atom, print_term};
use std::alloc::AllocError;

/// Appends what stands before one of several texts; `later` says that another one stands before it.
fn print_lead(first: &[u8], later: bool, out: &mut Vec<u8>) -> Result<(), AllocError>
    ensures { OnOk result (out.new.items ≡ out.old.items ++ lead first.now later) }
{
    if later {
        out.extend_from_slice(b", ")
    } else {
        out.extend_from_slice(first)
    }
}

/// Appends atoms, with a comma and a space between each two.
pub(crate) fn print_atoms(atoms: &[Atom], out: &mut Vec<u8>) -> Result<(), AllocError>
    ensures { OnOk result (out.new.items ≡ out.old.items ++ listed atom_text atoms.now) }
{
    let mut later = false;
    for atom in atoms {
        print_lead(b"", later, out)?;
        print_atom(atom, out)?;
        later = true;
    }
    Ok(())
}

/// Appends terms, the first behind ` with `, and each later one behind a comma and a space.
pub(crate) fn print_terms(terms: &[Term], out: &mut Vec<u8>) -> Result<(), AllocError>
    ensures { OnOk result (out.new.items ≡ out.old.items ++ led_from (codes " with ") false (map printed terms.now)) }
{
    let mut later = false;
    for term in terms {
        print_lead(b" with ", later, out)?;
        print_term(term, out)?;
        later = true;
    }
    Ok(())
}

/// Appends times as terms are; `later` says that a term stands before them.
pub(crate) fn print_times(later: bool, times: &[u64], out: &mut Vec<u8>) -> Result<(), AllocError>
    ensures { OnOk result (out.new.items ≡ out.old.items ++ led_from (codes " with ") later (map decimal times.now)) }
{
    let mut later = later;
    for time in times {
        print_lead(b" with ", later, out)?;
        print_number(*time, out)?;
        later = true;
    }
    Ok(())
}
