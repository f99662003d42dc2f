ghost use Rattle.std.specs.Prelude.{◌≡◌, ◌++◌, [], false, ◌||◌, IfOk, OnOk, cond};
ghost use Rattle.lps_terms.specs.Printed.{atom_text, before_atom, listed_from};
ghost use Rattle.lps_facts.specs.Trail.{present};

use lps_terms::{Atom, print_atom};
use std::alloc::AllocError;
use std::collections::BTreeMap;

fn print_fact(later: bool, fact: &Atom, out: &mut Vec<u8>) -> Result<(), AllocError>
    ensures { OnOk result (out.new.items ≡ out.old.items ++ (before_atom later ++ atom_text fact.now)) }
{
    let lead = if later {
        b", ".as_slice()
    } else {
        b" ".as_slice()
    };
    out.extend_from_slice(lead)?;
    print_atom(fact, out)
}

/// Appends the text of a fact that is present, and says whether a fact stands there now.
fn print_entry(later: bool, fact: &Atom, here: bool, out: &mut Vec<u8>) -> Result<bool, AllocError>
    ensures later { IfOk result (λ now. now ≡ (later || here)) }
    ensures printed { OnOk result (out.new.items ≡ out.old.items ++ cond here (before_atom later ++ atom_text fact.now) []) }
{
    if here {
        print_fact(later, fact, out)?;
        Ok(true)
    } else {
        Ok(later)
    }
}

/// Appends the texts of the facts that are present, in order.
pub(crate) fn print_present(
    entries: &BTreeMap<Atom, bool>,
    out: &mut Vec<u8>,
) -> Result<(), AllocError>
    ensures { OnOk result (out.new.items ≡ out.old.items ++ listed_from false (present entries.now.entries)) }
{
    let mut later = false;
    for (fact, here) in entries.iter() {
        later = print_entry(later, fact, *here, out)?;
    }
    Ok(())
}
