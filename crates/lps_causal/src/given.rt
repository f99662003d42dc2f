ghost use Rattle.std.specs.Prelude.{◌≡◌, [], Bool, OnOk, map};
ghost use Rattle.lps_causal.specs.Given.{Adds, IsOfRowAs, fluents_of};

use lps_terms::{Atom, Name, Values};
use std::alloc::{AllocError, Global};

/// The fluents that laws give, by what the laws do with them, in any order and as often as they are given.
#[derive(Drop)]
pub(crate) struct Given {
    pub(crate) initiated: Vec<Atom>,
    pub(crate) terminated: Vec<Atom>,
}

impl Given {
    pub(crate) fn new(alloc: Global) -> Given
        ensures { (initiates : Bool) → fluents_of initiates result ≡ [] }
    {
        Given {
            initiated: Vec::new(alloc),
            terminated: Vec::new(alloc),
        }
    }

    /// Adds the fluents of this name whose arguments are the rows.
    pub(crate) fn add_rows(
        &mut self,
        alloc: Global,
        initiates: bool,
        name: &Name,
        mut rows: Vec<Values>,
    ) -> Result<(), AllocError>
        ensures { OnOk result (Adds self.old self.new (IsOfRowAs initiates name.now (map (λ v. v.0) rows.items))) }
    {
        while let Some(row) = rows.pop() {
            let name = name.copy(alloc)?;
            self.add(initiates, Atom { name, args: row.0 })?;
        }
        Ok(())
    }

    fn add(&mut self, initiates: bool, fluent: Atom) -> Result<(), AllocError>
        ensures { OnOk result (Adds self.old self.new (λ kind a. (initiates ≡ kind) × (a ≡ fluent))) }
    {
        if initiates {
            self.initiated.push(fluent)?;
        } else {
            self.terminated.push(fluent)?;
        }
        Ok(())
    }
}
