ghost use Rattle.std.specs.Prelude.{◌≡◌, ◌++◌, [], List, codes, map, true, OnOk, if◌then◌else◌};
ghost use Rattle.std.specs.Fmt.{signed_decimal};
ghost use Rattle.lps_printer.specs.Terms.{atom_text, call_text, term_text, written};

use lps_terms::{Atom, Name, Term};
use std::alloc::AllocError;

/// The written name of a variable or a time.
pub fn append_name(names: &[Name], number: u32, out: &mut Vec<u8>) -> Result<(), AllocError>
    ensures { OnOk result (out.new.items ≡ out.old.items ++ written names.now number) }
{
    match names.get(number as usize) {
        Some(name) => out.extend_from_slice(name.bytes()),
        None => Ok(()),
    }
}

/// These bytes where they are wanted.
pub fn append_where(wanted: bool, bytes: &[u8], out: &mut Vec<u8>) -> Result<(), AllocError>
    ensures { OnOk result (out.new.items ≡ out.old.items ++ (if wanted then bytes.now else [])) }
{
    if wanted {
        out.extend_from_slice(bytes)
    } else {
        Ok(())
    }
}

fn append_integer(value: i64, out: &mut Vec<u8>) -> Result<(), AllocError>
    ensures { OnOk result (out.new.items ≡ out.old.items ++ signed_decimal value) }
{
    let text = value.to_string(*out.allocator())?;
    out.extend_from_slice(text.as_bytes())
}

#[cycle(terms)]
pub fn append_term(names: &[Name], term: &Term, out: &mut Vec<u8>) -> Result<(), AllocError>
    ensures { OnOk result (out.new.items ≡ out.old.items ++ term_text names.now term.now) }
{
    match term {
        Term::Int(value) => append_integer(*value, out),
        Term::Sym(name) => out.extend_from_slice(name.bytes()),
        Term::App(name, args) => append_call(names, name.bytes(), args.as_slice(), out),
        Term::Var(number) => append_name(names, *number, out),
    }
}

#[cycle(terms)]
fn append_call(
    names: &[Name],
    name: &[u8],
    args: &[Term],
    out: &mut Vec<u8>,
) -> Result<(), AllocError>
    ensures { OnOk result (out.new.items ≡ out.old.items ++ call_text name.now (map (term_text names.now) args.now)) }
{
    out.extend_from_slice(name)?;
    out.extend_from_slice(b"(")?;
    let mut later = false;
    for arg in args {
        append_where(later, b", ", out)?;
        append_term(names, arg, out)?;
        later = true;
    }
    out.extend_from_slice(b")")
}

/// The text of an atom.
pub fn append_atom(names: &[Name], atom: &Atom, out: &mut Vec<u8>) -> Result<(), AllocError>
    ensures { OnOk result (out.new.items ≡ out.old.items ++ atom_text names.now atom.now) }
{
    if atom.args.is_empty() {
        out.extend_from_slice(atom.name.bytes())
    } else {
        append_call(names, atom.name.bytes(), atom.args.as_slice(), out)
    }
}
