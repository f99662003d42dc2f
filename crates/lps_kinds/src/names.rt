use indexmap::IndexSet;
use lps_terms::Name;
use std::alloc::{AllocError, Global};
use std::marker::Model;

/// A set of names. Contracts see the names in the order in which they came.
#[derive(Drop)]
pub struct Names {
    names: IndexSet<Name>,
}

impl Model for Names {
    ghost use Rattle.std.specs.Prelude.{List, ℕ};

    ghost Value = { List (List ℕ) };

    ghost view = { λ names. names.names.keys };
}

impl Names {
    ghost use Rattle.std.specs.Prelude.{◌≡◌, ◌∷◌, [], ℕ, List, OnOk};
    ghost use Rattle.std.specs.List.{list_any};
    ghost use Rattle.std.specs.Str.{bytes_eq};
    ghost use Rattle.lps_kinds.specs.Names.{IsSetOf};

    pub fn new(alloc: Global) -> Names
        ensures { IsSetOf [] result }
    {
        Names {
            names: IndexSet::new(alloc),
        }
    }

    pub fn contains(&self, name: &Name) -> bool
        ensures { result ≡ list_any (bytes_eq name.now) self.now }
    {
        self.names.contains(name)
    }

    pub fn insert(&mut self, alloc: Global, name: &Name) -> Result<(), AllocError>
        ensures { (before : List (List ℕ)) → IsSetOf before self.old → OnOk result (IsSetOf (name.now ∷ before) self.new) }
    {
        let name = name.copy(alloc)?;
        self.names.insert(name)?;
        Ok(())
    }
}
