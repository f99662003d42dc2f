ghost use Rattle.std.specs.Prelude.{◌≡◌, ◌++◌, codes, decimal, length, map, take, OnErr, OnOk};
ghost use Rattle.std.specs.Fmt.{signed_decimal};
ghost use Rattle.lps_terms.specs.Printed.{atom_text, call_text, printed, separator};

use crate::atom::Atom;
use crate::term::Term;
use std::alloc::AllocError;

/// Appends the canonical text of an atom, as `f(a, b)`: integers in decimal, and a variable as `V` and its number.
/// An error leaves `out` as it was.
pub fn print_atom(atom: &Atom, out: &mut Vec<u8>) -> Result<(), AllocError>
    ensures ok { OnOk result (out.new.items ≡ out.old.items ++ atom_text atom.now) }
    ensures err { OnErr result (out.new.items ≡ out.old.items) }
{
    let start = out.len();
    let printed = append_atom(atom, out);
    if printed.is_err() {
        out.truncate(start);
    }
    printed
}

/// Appends the canonical text of a term, as `print_atom` does. An error leaves `out` as it was.
pub fn print_term(term: &Term, out: &mut Vec<u8>) -> Result<(), AllocError>
    ensures ok { OnOk result (out.new.items ≡ out.old.items ++ printed term.now) }
    ensures err { OnErr result (out.new.items ≡ out.old.items) }
{
    let start = out.len();
    let printed = append_term(term, out);
    if printed.is_err() {
        out.truncate(start);
    }
    printed
}

fn append_atom(atom: &Atom, out: &mut Vec<u8>) -> Result<(), AllocError>
    ensures ok { OnOk result (out.new.items ≡ out.old.items ++ atom_text atom.now) }
    ensures front { OnErr result (take (length out.old.items) out.new.items ≡ out.old.items) }
{
    if atom.args.is_empty() {
        out.extend_from_slice(atom.name.bytes())
    } else {
        append_call(atom.name.bytes(), atom.args.as_slice(), out)
    }
}

#[cycle(print)]
fn append_term(term: &Term, out: &mut Vec<u8>) -> Result<(), AllocError>
    ensures ok { OnOk result (out.new.items ≡ out.old.items ++ printed term.now) }
    ensures front { OnErr result (take (length out.old.items) out.new.items ≡ out.old.items) }
{
    match term {
        Term::Int(value) => append_integer(*value, out),
        Term::Sym(name) => out.extend_from_slice(name.bytes()),
        Term::App(name, args) => append_call(name.bytes(), args.as_slice(), out),
        Term::Var(number) => append_variable(*number, out),
    }
}

#[cycle(print)]
fn append_call(name: &[u8], args: &[Term], out: &mut Vec<u8>) -> Result<(), AllocError>
    ensures ok { OnOk result (out.new.items ≡ out.old.items ++ call_text name.now (map printed args.now)) }
    ensures front { OnErr result (take (length out.old.items) out.new.items ≡ out.old.items) }
{
    out.extend_from_slice(name)?;
    out.push(b'(')?;
    for (i, arg) in args.iter().enumerate() {
        append_separator(i, out)?;
        append_term(arg, out)?;
    }
    out.push(b')')?;
    Ok(())
}

/// What stands before argument i.
fn append_separator(i: usize, out: &mut Vec<u8>) -> Result<(), AllocError>
    ensures ok { OnOk result (out.new.items ≡ out.old.items ++ separator i) }
    ensures err { OnErr result (out.new.items ≡ out.old.items) }
{
    if i == 0 {
        return Ok(());
    }
    out.extend_from_slice(b", ")
}

fn append_integer(value: i64, out: &mut Vec<u8>) -> Result<(), AllocError>
    ensures ok { OnOk result (out.new.items ≡ out.old.items ++ signed_decimal value) }
    ensures err { OnErr result (out.new.items ≡ out.old.items) }
{
    let text = value.to_string(*out.allocator())?;
    out.extend_from_slice(text.as_bytes())
}

fn append_variable(number: u32, out: &mut Vec<u8>) -> Result<(), AllocError>
    ensures ok { OnOk result (out.new.items ≡ out.old.items ++ codes "V" ++ decimal number) }
    ensures err { OnErr result (out.new.items ≡ out.old.items) }
{
    let text = format!(in *out.allocator(); "V{number}")?;
    out.extend_from_slice(text.as_bytes())
}
