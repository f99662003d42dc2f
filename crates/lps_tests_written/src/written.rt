//! Texts, terms, atoms and conditions, as a text writes them: variables are numbered from 0 in the order in which they first occur.
ghost use Rattle.std.specs.Prelude.{IfOk, IsTrue};
ghost use Rattle.lps_model.specs.Formed.{is_formed};

use lps_accept::accept;
use lps_formed::read_texts_are_formed;
use lps_model::Accepted;
use lps_reader::{ReadError, read_text};
use lps_terms::{Atom, Body, Cond, Term, Text, print_atom};
use sqlite_items::Items;
use std::alloc::{AllocError, Global};
use std::test::Fail;

/// Reads bytes as a text, which is then well-formed.
fn formed_text(alloc: Global, bytes: &[u8]) -> Result<Text, ReadError>
    ensures { IfOk result (λ text. IsTrue (is_formed text)) }
{
    read_texts_are_formed();
    read_text(alloc, bytes)
}

/// The text, accepted.
pub fn accepted_of(alloc: Global, text: &str) -> Result<Accepted, Fail> {
    match formed_text(alloc, text.as_bytes()) {
        Ok(text) => match accept(alloc, text) {
            Ok(accepted) => Ok(accepted),
            Err(_) => Err(Fail::from("not accepted")),
        },
        Err(_) => Err(Fail::from("not read")),
    }
}

/// What the last statement of a text says.
fn body_of(alloc: Global, text: &str) -> Result<Body, Fail> {
    let mut text = read_text(alloc, text.as_bytes()).ok().ok_or("not read")?;
    let statement = text.statements.pop().ok_or("no statement")?;
    Ok(statement.body)
}

/// The atoms of a list.
pub fn atoms_of(alloc: Global, list: &str) -> Result<Items<Atom>, Fail> {
    if list.is_empty() {
        return Ok(Items::new(alloc));
    }
    let text = format!(in alloc; "initially {list}.")?;
    match body_of(alloc, text.as_str())? {
        Body::Initially(atoms) => Ok(atoms),
        _ => Err(Fail::from("no atoms")),
    }
}

/// An atom alone.
pub fn atom_of(alloc: Global, atom: &str) -> Result<Atom, Fail> {
    Ok(atoms_of(alloc, atom)?.pop().ok_or("no atom")?)
}

/// The terms of a list.
pub fn terms_of(alloc: Global, list: &str) -> Result<Items<Term>, Fail> {
    let atom = format!(in alloc; "p({list})")?;
    Ok(atom_of(alloc, atom.as_str())?.args)
}

/// The conditions of a list.
pub fn conditions_of(alloc: Global, list: &str) -> Result<Items<Cond>, Fail> {
    let text = format!(in alloc; "p if {list}.")?;
    match body_of(alloc, text.as_str())? {
        Body::Clause { head: _, conds } => Ok(conds),
        _ => Err(Fail::from("no conditions")),
    }
}

/// The texts of atoms, each with a space behind it.
pub fn shown(alloc: Global, atoms: &[Atom]) -> Result<Vec<u8>, AllocError> {
    let mut text = Vec::new(alloc);
    for atom in atoms {
        print_atom(atom, &mut text)?;
        text.push(b' ')?;
    }
    Ok(text)
}
