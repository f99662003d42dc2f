ghost use Rattle.std.specs.Prelude.{◌≡◌, ◌++◌, ◌∷◌, [], List, IfOk};
ghost use Rattle.lps_terms.specs.declared.atom.Atom.{Atom as Asked};
ghost use Rattle.lps_index.specs.Spoken.{atom_in, of_items};
ghost use Rattle.lps_index.specs.Table.{IsCounted, IsNotedIn, IsTableOf, IsWithClosed, IsWithOther, found_in};

use crate::closed::closed_first;
use crate::found::Found;
use crate::places::{ByName, ByNameAndTerm, places_at, places_of, with_name, with_name_and_term};
use indexmap::IndexMap;
use lps_terms::{Atom, Item, Name, Term};
use std::alloc::{AllocError, Global};

/// The statements of one kind by the atoms that they are found by.
#[derive(Drop)]
pub(crate) struct Table {
    /// How many statements were added.
    pub count: usize,
    /// By the names of all atoms.
    pub all: ByName,
    /// By the names of those atoms that have no first argument, or one with variables.
    pub others: ByName,
    /// By the names and the first arguments of the others.
    pub closed: ByNameAndTerm,
}

impl Table {
    /// The table of no statements.
    pub(crate) fn new(alloc: Global) -> Table
        ensures { IsTableOf [] result }
    {
        let all = IndexMap::new(alloc);
        let others = IndexMap::new(alloc);
        let closed = IndexMap::new(alloc);
        Table {
            count: 0,
            all,
            others,
            closed,
        }
    }

    /// The table with one statement more, which is found by an atom.
    pub(crate) fn with_atom(self, alloc: Global, atom: &Atom) -> Result<Table, AllocError>
        ensures { (spoken : List (List Asked)) → IsTableOf spoken self → IfOk result (λ new. IsTableOf (spoken ++ (atom.now ∷ []) ∷ []) new) }
    {
        let place = self.count;
        let table = self.noted(alloc, atom, place)?;
        table.counted()
    }

    /// The table with one statement more, which is found by the atoms of items.
    pub(crate) fn with_items(self, alloc: Global, items: &[Item]) -> Result<Table, AllocError>
        ensures { (spoken : List (List Asked)) → IsTableOf spoken self → IfOk result (λ new. IsTableOf (spoken ++ of_items items.now ∷ []) new) }
    {
        let place = self.count;
        let mut table = self;
        for item in items {
            let next = table.with_item(alloc, item, place)?;
            table = next;
        }
        table.counted()
    }

    /// The table where a place is found by the atom of an item besides.
    fn with_item(self, alloc: Global, item: &Item, place: usize) -> Result<Table, AllocError>
        ensures { IfOk result (λ new. IsNotedIn self new place (atom_in item.now)) }
    {
        match item {
            Item::At(lit, _) => self.noted(alloc, &lit.atom, place),
            Item::Bare(lit) => self.noted(alloc, &lit.atom, place),
            Item::Span(atom, _, _) => self.noted(alloc, atom, place),
            Item::Built(_) => Ok(self),
            Item::Con(_) => Ok(self),
        }
    }

    /// The table where a place is found by an atom besides.
    fn noted(self, alloc: Global, atom: &Atom, place: usize) -> Result<Table, AllocError>
        ensures { IfOk result (λ new. IsNotedIn self new place (atom.now ∷ [])) }
    {
        match closed_first(atom.args.as_slice()) {
            Some(first) => self.noted_closed(alloc, &atom.name, first, place),
            None => self.noted_other(alloc, &atom.name, place),
        }
    }

    /// The same for an atom of this name whose first argument is this one and has no variables.
    fn noted_closed(
        self,
        alloc: Global,
        name: &Name,
        first: &Term,
        place: usize,
    ) -> Result<Table, AllocError>
        ensures { IfOk result (λ new. IsWithClosed name.now first.now place self new) }
    {
        let Table {
            count,
            all,
            others,
            closed,
        } = self;
        let all = with_name(alloc, all, name, place)?;
        let closed = with_name_and_term(alloc, closed, name, first, place)?;
        Ok(Table {
            count,
            all,
            others,
            closed,
        })
    }

    /// The same for another atom of this name.
    fn noted_other(self, alloc: Global, name: &Name, place: usize) -> Result<Table, AllocError>
        ensures { IfOk result (λ new. IsWithOther name.now place self new) }
    {
        let Table {
            count,
            all,
            others,
            closed,
        } = self;
        let all = with_name(alloc, all, name, place)?;
        let others = with_name(alloc, others, name, place)?;
        Ok(Table {
            count,
            all,
            others,
            closed,
        })
    }

    /// The table that counts one statement more.
    fn counted(self) -> Result<Table, AllocError>
        ensures { IfOk result (λ new. IsCounted self new) }
    {
        let Table {
            count,
            all,
            others,
            closed,
        } = self;
        match count.checked_add(1) {
            Some(count) => Ok(Table {
                count,
                all,
                others,
                closed,
            }),
            None => Err(AllocError),
        }
    }

    /// The places that are found by an atom.
    pub(crate) fn found(&self, asked: &Atom) -> Found<'_>
        ensures { result.keyed.now ++ result.others.now ≡ found_in self.now asked.now }
    {
        match closed_first(asked.args.as_slice()) {
            Some(first) => Found {
                keyed: places_at(&self.closed, &asked.name, first),
                others: places_of(&self.others, &asked.name),
            },
            None => Found {
                keyed: places_of(&self.all, &asked.name),
                others: &[],
            },
        }
    }

    /// The places that are found by atoms of a name.
    pub(crate) fn named(&self, name: &Name) -> &[usize]
        ensures { result.now ≡ found_in self.now (record { name = name.now; args = [] }) }
    {
        places_of(&self.all, name)
    }
}
