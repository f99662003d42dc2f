ghost use Rattle.std.specs.Prelude.{◌≡◌, ◌++◌, false, codes, map, IfOk, OnOk};
ghost use Rattle.std.specs.Fmt.{decimal};
ghost use Rattle.lps_printer.specs.Items.{items_text};
ghost use Rattle.lps_printer.specs.Statements.{body_text, canonical, decl_text, declare_text, kind_text, law_text, mode_text, modes_text, shape_text, statement_text};
ghost use Rattle.lps_printer.specs.Terms.{atom_text, joined, listed};

use crate::items::{append_if_conds, append_items};
use crate::terms::{append_atom, append_name, append_where};
use lps_terms::{Atom, Body, Decl, Item, Kind, Mode, Name, Statement, Text};
use sqlite_items::Items;
use std::alloc::{AllocError, Global};

fn append_kind(kind: Kind, out: &mut Vec<u8>) -> Result<(), AllocError>
    ensures { OnOk result (out.new.items ≡ out.old.items ++ kind_text kind) }
{
    match kind {
        Kind::Fluent => out.extend_from_slice(b"fluent "),
        Kind::Event => out.extend_from_slice(b"event "),
        Kind::Action => out.extend_from_slice(b"action "),
        Kind::Timeless => out.extend_from_slice(b"timeless "),
        Kind::Derived => out.extend_from_slice(b"derived "),
        Kind::Macro => out.extend_from_slice(b"macro "),
    }
}

fn append_mode(mode: Mode, out: &mut Vec<u8>) -> Result<(), AllocError>
    ensures { OnOk result (out.new.items ≡ out.old.items ++ mode_text mode) }
{
    match mode {
        Mode::Plus => out.extend_from_slice(b"+"),
        Mode::Minus => out.extend_from_slice(b"-"),
        Mode::Star => out.extend_from_slice(b"*"),
    }
}

fn append_mode_list(modes: &[Mode], out: &mut Vec<u8>) -> Result<(), AllocError>
    ensures { OnOk result (out.new.items ≡ out.old.items ++ listed (map mode_text modes.now)) }
{
    let mut later = false;
    for mode in modes {
        append_where(later, b", ", out)?;
        append_mode(*mode, out)?;
        later = true;
    }
    Ok(())
}

fn append_modes(modes: &[Mode], out: &mut Vec<u8>) -> Result<(), AllocError>
    ensures { OnOk result (out.new.items ≡ out.old.items ++ modes_text modes.now) }
{
    match modes {
        [] => Ok(()),
        _ => {
            out.extend_from_slice(b"(")?;
            append_mode_list(modes, out)?;
            out.extend_from_slice(b")")
        }
    }
}

fn append_arity(arity: u32, out: &mut Vec<u8>) -> Result<(), AllocError>
    ensures { OnOk result (out.new.items ≡ out.old.items ++ (codes "/" ++ decimal arity)) }
{
    out.extend_from_slice(b"/")?;
    let text = arity.to_string(*out.allocator())?;
    out.extend_from_slice(text.as_bytes())
}

/// What follows a declared name.
fn append_shape(kind: Kind, arity: u32, modes: &[Mode], out: &mut Vec<u8>) -> Result<(), AllocError>
    ensures { OnOk result (out.new.items ≡ out.old.items ++ shape_text kind arity modes.now) }
{
    match kind {
        Kind::Fluent => append_arity(arity, out),
        Kind::Event => append_arity(arity, out),
        Kind::Action => append_arity(arity, out),
        Kind::Timeless => append_modes(modes, out),
        Kind::Derived => append_modes(modes, out),
        Kind::Macro => append_modes(modes, out),
    }
}

fn append_decl(decl: &Decl, out: &mut Vec<u8>) -> Result<(), AllocError>
    ensures { OnOk result (out.new.items ≡ out.old.items ++ decl_text decl.now) }
{
    out.extend_from_slice(decl.name.bytes())?;
    append_shape(decl.kind, decl.arity, decl.modes.as_slice(), out)
}

fn append_decls(decls: &[Decl], out: &mut Vec<u8>) -> Result<(), AllocError>
    ensures { OnOk result (out.new.items ≡ out.old.items ++ listed (map decl_text decls.now)) }
{
    let mut later = false;
    for decl in decls {
        append_where(later, b", ", out)?;
        append_decl(decl, out)?;
        later = true;
    }
    Ok(())
}

fn append_declare(decls: &[Decl], out: &mut Vec<u8>) -> Result<(), AllocError>
    ensures { OnOk result (out.new.items ≡ out.old.items ++ declare_text decls.now) }
{
    match decls {
        [] => Ok(()),
        [first, ..] => {
            append_kind(first.kind, out)?;
            append_decls(decls, out)
        }
    }
}

fn append_atoms(names: &[Name], atoms: &[Atom], out: &mut Vec<u8>) -> Result<(), AllocError>
    ensures { OnOk result (out.new.items ≡ out.old.items ++ listed (map (atom_text names.now) atoms.now)) }
{
    let mut later = false;
    for atom in atoms {
        append_where(later, b", ", out)?;
        append_atom(names, atom, out)?;
        later = true;
    }
    Ok(())
}

fn append_alternatives(
    names: &[Name],
    times: &[Name],
    alternatives: &[Items<Item>],
    out: &mut Vec<u8>,
) -> Result<(), AllocError>
    ensures { OnOk result (out.new.items ≡ out.old.items ++ joined (codes " or ") false (map (items_text names.now times.now) alternatives.now)) }
{
    let mut later = false;
    for items in alternatives {
        append_where(later, b" or ", out)?;
        append_items(names, times, items.as_slice(), out)?;
        later = true;
    }
    Ok(())
}

fn append_law_word(initiates: bool, out: &mut Vec<u8>) -> Result<(), AllocError>
    ensures { OnOk result (out.new.items ≡ out.old.items ++ law_text initiates) }
{
    if initiates {
        out.extend_from_slice(b" initiates ")
    } else {
        out.extend_from_slice(b" terminates ")
    }
}

/// A statement without its full stop.
fn append_body(
    names: &[Name],
    times: &[Name],
    body: &Body,
    out: &mut Vec<u8>,
) -> Result<(), AllocError>
    ensures { OnOk result (out.new.items ≡ out.old.items ++ body_text names.now times.now body.now) }
{
    match body {
        Body::Declare(decls) => append_declare(decls.as_slice(), out),
        Body::Initially(atoms) => {
            out.extend_from_slice(b"initially ")?;
            append_atoms(names, atoms.as_slice(), out)
        }
        Body::Denial(items) => {
            out.extend_from_slice(b"false ")?;
            append_items(names, times, items.as_slice(), out)
        }
        Body::Rule {
            antecedent,
            alternatives,
        } => {
            out.extend_from_slice(b"if ")?;
            append_items(names, times, antecedent.as_slice(), out)?;
            out.extend_from_slice(b" then ")?;
            append_alternatives(names, times, alternatives.as_slice(), out)
        }
        Body::Law {
            initiates,
            event,
            fluent,
            conds,
        } => {
            append_atom(names, event, out)?;
            append_law_word(*initiates, out)?;
            append_atom(names, fluent, out)?;
            append_if_conds(names, conds.as_slice(), out)
        }
        Body::Clause { head, conds } => {
            append_atom(names, head, out)?;
            append_if_conds(names, conds.as_slice(), out)
        }
        Body::MacroClause {
            head,
            begin,
            end,
            items,
        } => {
            append_atom(names, head, out)?;
            out.extend_from_slice(b" from ")?;
            append_name(times, begin.0, out)?;
            out.extend_from_slice(b" to ")?;
            append_name(times, end.0, out)?;
            out.extend_from_slice(b" if ")?;
            append_items(names, times, items.as_slice(), out)
        }
    }
}

fn append_statement(statement: &Statement, out: &mut Vec<u8>) -> Result<(), AllocError>
    ensures { OnOk result (out.new.items ≡ out.old.items ++ statement_text statement.now) }
{
    append_body(
        statement.names.as_slice(),
        statement.times.as_slice(),
        &statement.body,
        out,
    )?;
    out.extend_from_slice(b".\n")
}

/// The canonical text: each statement on a line of its own, ended by a full stop and a line feed; one space round words
/// and round the signs of built-ins and constraints; a comma and a space between the parts of a list; variables and
/// times under their written names; in expressions only the parentheses that the grammar needs.
pub fn print_text(alloc: Global, text: &Text) -> Result<Vec<u8>, AllocError>
    ensures { IfOk result (λ bytes. bytes.items ≡ canonical text.now) }
{
    let mut out = Vec::new(alloc);
    for statement in text.statements.as_slice() {
        append_statement(statement, &mut out)?;
    }
    Ok(out)
}
