ghost use Rattle.std.specs.Prelude.{◌≡◌, ◌++◌, IfOk, OnOk};
ghost use Rattle.lps_model.specs.Program.{declarations, declared_in};

use crate::copy::copy_decl;
use crate::table::Table;
use lps_terms::{Body, Decl, Kind, Mode, Name, Text};
use std::alloc::{AllocError, Global};
use std::marker::Model;

/// The declarations of a text, so that what is declared of a name is found at once. Contracts see the declarations, in
/// text order; the first one of a name counts.
#[derive(Drop)]
pub struct Kinds {
    decls: Vec<Decl>,
    table: Table,
}

impl Model for Kinds {
    ghost use Rattle.std.specs.Prelude.{List};
    ghost use Rattle.lps_terms.specs.declared.decl.Decl.{Decl};
    ghost use Rattle.lps_model.specs.Table.{IsTableOf};

    ghost Value = { List Decl };

    ghost view = { λ kinds. kinds.decls.items };

    ghost invariant = { λ kinds. IsTableOf kinds.decls.items kinds.table };
}

impl Kinds {
    ghost use Rattle.std.specs.Prelude.{◌≡◌, IfOk, option_copied};
    ghost use Rattle.lps_model.specs.Declarations.{arity_among, decl_among, kind_among, modes_among};
    ghost use Rattle.lps_model.specs.Program.{declarations};

    /// The declarations of a text.
    pub fn of(alloc: Global, text: &Text) -> Result<Kinds, AllocError>
        ensures { IfOk result (λ kinds. kinds ≡ declarations text.now) }
    {
        let decls = declarations_of(alloc, text)?;
        let table = Table::of(alloc, decls.as_slice())?;
        Ok(Kinds { decls, table })
    }

    /// The first declaration of a name.
    pub fn decl(&self, name: &Name) -> Option<&Decl>
        ensures { option_copied result ≡ decl_among self.now name.now }
    {
        self.table.decl(name)
    }

    /// The kind of a name, where it is declared.
    pub fn kind(&self, name: &Name) -> Option<Kind>
        ensures { result ≡ kind_among self.now name.now }
    {
        match self.decl(name) {
            Some(decl) => Some(decl.kind),
            None => None,
        }
    }

    /// How many arguments a name is declared with, where it is declared.
    pub fn arity(&self, name: &Name) -> Option<u32>
        ensures { result ≡ arity_among self.now name.now }
    {
        match self.decl(name) {
            Some(decl) => Some(decl.arity),
            None => None,
        }
    }

    /// The modes of the arguments of a name, where it is declared: none for a fluent, an event or an action.
    pub fn modes(&self, name: &Name) -> Option<&[Mode]>
        ensures { option_copied result ≡ modes_among self.now name.now }
    {
        match self.decl(name) {
            Some(decl) => Some(decl.modes.as_slice()),
            None => None,
        }
    }
}

/// Copies of the declarations of a text.
fn declarations_of(alloc: Global, text: &Text) -> Result<Vec<Decl>, AllocError>
    ensures { IfOk result (λ decls. decls.items ≡ declarations text.now) }
{
    let mut decls = Vec::new(alloc);
    for statement in text.statements.as_slice() {
        add_declared(alloc, &mut decls, &statement.body)?;
    }
    Ok(decls)
}

/// Adds copies of the declarations of a statement, in order.
fn add_declared(alloc: Global, decls: &mut Vec<Decl>, body: &Body) -> Result<(), AllocError>
    ensures { OnOk result (decls.new.items ≡ decls.old.items ++ declared_in body.now) }
{
    if let Body::Declare(declared) = body {
        for decl in declared.as_slice() {
            decls.push(copy_decl(alloc, decl)?)?;
        }
    }
    Ok(())
}
