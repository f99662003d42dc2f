use indexmap::IndexSet;
use lps_terms::Name;
use std::alloc::{AllocError, Global};
use std::marker::Model;

/// Names with numbers, which count them from 0. Contracts see the names by their numbers.
#[derive(Drop)]
pub struct Names {
    names: IndexSet<Name>,
}

impl Model for Names {
    ghost use Rattle.std.specs.Prelude.{List, ℕ};

    ghost Value = { List (List ℕ) };

    ghost view = { λ names. names.names.keys };
}

impl Names {
    ghost use Rattle.std.specs.Prelude.{◌≡◌, [], OnOk, position};
    ghost use Rattle.std.specs.Str.{bytes_eq};
    ghost use Rattle.lps_levels.specs.Names.{with_name};

    pub fn new(alloc: Global) -> Names
        ensures { result ≡ [] }
    {
        Names {
            names: IndexSet::new(alloc),
        }
    }

    /// Gives a name the next number, where it has none.
    pub fn insert(&mut self, alloc: Global, name: &Name) -> Result<(), AllocError>
        ensures { OnOk result (self.new ≡ with_name self.old name.now) }
    {
        let name = name.copy(alloc)?;
        self.names.insert(name)?;
        Ok(())
    }

    /// The number of a name.
    pub fn number(&self, name: &Name) -> Option<usize>
        ensures { result ≡ position (bytes_eq name.now) self.now }
    {
        self.names.get_index_of(name)
    }

    /// The names by their numbers.
    pub fn as_slice(&self) -> &[Name]
        ensures { result.now ≡ self.now }
    {
        self.names.as_slice()
    }
}
