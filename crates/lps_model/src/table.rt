use crate::copy::copy_decl;
use indexmap::IndexMap;
use lps_terms::{Decl, Name};
use std::alloc::{AllocError, Global};
use std::marker::Model;

/// The first declarations of predicates by name. Contracts see the names with their declarations, in order.
#[derive(Drop)]
pub struct Table {
    table: IndexMap<Name, Decl>,
}

impl Model for Table {
    ghost use Rattle.std.specs.Prelude.{List, ℕ};
    ghost use Rattle.lps_terms.specs.declared.decl.Decl.{Decl};

    ghost Value = { List (List ℕ × Decl) };

    ghost view = { λ table. table.table.entries };
}

impl Table {
    ghost use Rattle.std.specs.Prelude.{◌≡◌, ◌++◌, ◌∷◌, [], List, IfOk, OnOk, is_some, option_copied};
    ghost use Rattle.lps_terms.specs.declared.decl.Decl.{Decl as Declared};
    ghost use Rattle.lps_model.specs.Table.{decl_named, IsTableOf};

    /// The table of no declarations.
    pub fn new(alloc: Global) -> Table
        ensures { IsTableOf [] result }
    {
        Table {
            table: IndexMap::new(alloc),
        }
    }

    /// The table of these declarations.
    pub fn of(alloc: Global, decls: &[Decl]) -> Result<Table, AllocError>
        ensures { IfOk result (λ table. IsTableOf decls.now table) }
    {
        let mut table = Table::new(alloc);
        for decl in decls {
            table.declare(alloc, decl)?;
        }
        Ok(table)
    }

    /// The first declaration of a name, where the table has one.
    pub fn decl(&self, name: &Name) -> Option<&Decl>
        ensures { option_copied result ≡ decl_named self.now name.now }
    {
        self.table.get(name)
    }

    /// Whether the table has a declaration of a name.
    pub fn has(&self, name: &Name) -> bool
        ensures { result ≡ is_some (decl_named self.now name.now) }
    {
        match self.decl(name) {
            Some(_) => true,
            None => false,
        }
    }

    /// Notes one declaration more. The first declaration of a name stays.
    pub fn declare(&mut self, alloc: Global, decl: &Decl) -> Result<(), AllocError>
        ensures { (decls : List Declared) → IsTableOf decls self.old → OnOk result (IsTableOf (decls ++ decl.now ∷ []) self.new) }
    {
        if self.has(&decl.name) {
            return Ok(());
        }
        let name = decl.name.copy(alloc)?;
        let copy = copy_decl(alloc, decl)?;
        self.table.insert(name, copy)?;
        Ok(())
    }
}
