use indexmap::IndexMap;
use lps_terms::Name;
use std::alloc::{AllocError, Global};
use std::marker::Model;

/// The levels of names. Contracts see the names with their levels, in the order in which they came.
#[derive(Drop)]
pub struct Levels {
    table: IndexMap<Name, u32>,
}

impl Model for Levels {
    ghost use Rattle.std.specs.Prelude.{List, ℕ};

    ghost Value = { List (List ℕ × ℕ) };

    ghost view = { λ levels. levels.table.entries };
}

impl Levels {
    ghost use Rattle.std.specs.Prelude.{◌≡◌, [], Some, if◌then◌else◌, List, ℕ, OnOk};
    ghost use Rattle.std.specs.Map.{lookup};
    ghost use Rattle.std.specs.Str.{bytes_eq};

    /// The table of no names.
    pub fn new(alloc: Global) -> Levels
        ensures { result ≡ [] }
    {
        Levels {
            table: IndexMap::new(alloc),
        }
    }

    /// The level of a name, where the table has one.
    pub fn level(&self, name: &Name) -> Option<u32>
        ensures { result ≡ lookup (bytes_eq name.now) self.now }
    {
        self.table.get(name).copied()
    }

    /// Gives a name this level, in place of one that it had before.
    pub fn insert(&mut self, alloc: Global, name: &Name, level: u32) -> Result<(), AllocError>
        ensures { OnOk result ((other : List ℕ) → lookup (bytes_eq other) self.new ≡ (if bytes_eq name.now other then Some level else lookup (bytes_eq other) self.old)) }
    {
        let name = name.copy(alloc)?;
        self.table.insert(name, level)?;
        Ok(())
    }
}
