ghost use Rattle.std.specs.Prelude.{◌≡◌, ◌≤◌, ◌<◌, ◌-◌, ◌++◌, [], Bool, true, false, not, length, ◌↔◌, IfOk, IsTrue, OnOk, is_ok, if◌then◌else◌};
ghost use Rattle.std.specs.List.Sorted.{IsStrictlySortedBy};
ghost use Rattle.lps_terms.specs.Order.{atom_cmp};
ghost use Rattle.lps_terms.specs.declared.atom.Atom.{Atom};
ghost use Rattle.lps_facts.specs.Matching.{IsInstance};
ghost use Rattle.lps_terms.specs.Printed.{listed_from};
ghost use Rattle.lps_facts.specs.Facts.{back_to, is_among, members, then_change, will_change, with_effects, with_fact, with_facts, IsLater};

use crate::change::Change;
use crate::entries::{
    copy_matching, copy_present, forget_absent, is_present, make_room, set_present,
};
use crate::mark::Mark;
use crate::print::print_present;
use lps_terms::{Atom, Effects, copy_atom};
use std::alloc::{AllocError, Global};
use std::collections::BTreeMap;
use std::marker::Model;

/// A set of ground atoms that can be taken back to an earlier moment. Contracts see the facts at the beginning and
/// the changes since.
#[derive(Drop)]
pub struct Facts {
    /// Each fact that was ever in the set, and whether it is there now.
    entries: BTreeMap<Atom, bool>,
    trail: Vec<Change>,
}

impl Model for Facts {
    ghost use Rattle.lps_terms.specs.contracts.term.Term as term;
    ghost use Rattle.std.specs.Coded.{codes};
    ghost use Rattle.lps_facts.specs.Facts.{TrailedSet};
    ghost use Rattle.lps_facts.specs.Trail.{Stands, before, present};

    ghost Value = { TrailedSet };

    ghost coded = { Prim.hlevel (codes, term.the_row.coded) };

    ghost view = { λ facts. record { base = before (present facts.entries.entries) facts.trail.items; changes = facts.trail.items } };

    ghost invariant = { λ facts. Stands facts.entries.entries facts.trail.items };
}

impl Facts {
    /// No facts.
    pub fn new(alloc: Global) -> Facts
        ensures base { result.base ≡ [] }
        ensures changes { result.changes ≡ [] }
    {
        Facts {
            entries: BTreeMap::new(alloc),
            trail: Vec::new(alloc),
        }
    }

    /// Whether the fact is in the set.
    pub fn contains(&self, fact: &Atom) -> bool
        ensures sorted { IsStrictlySortedBy atom_cmp (members self.now) }
        ensures found { result ≡ is_among (members self.now) fact.now }
    {
        is_present(&self.entries, fact)
    }

    /// What holds of every set: its facts are in order, each once.
    pub fn lawful(&self)
        ensures { IsStrictlySortedBy atom_cmp (members self.now) }
    {
        let _ = &self.trail;
    }

    /// This moment, to which `undo_to` leads back.
    pub fn mark(&self) -> Mark
        ensures { result ≡ length self.now.changes }
    {
        Mark::new(self.trail.len())
    }

    /// Puts the fact in. True exactly where it was not there.
    pub fn insert(&mut self, fact: &Atom) -> Result<bool, AllocError>
        ensures changed { IfOk result (λ changed. changed ≡ not (is_among (members self.old) fact.now)) }
        ensures set { self.new ≡ (if is_ok result then with_fact true fact.now self.old else self.old) }
        ensures later { IsLater self.old self.new }
    {
        self.set(fact, true)
    }

    /// Puts each of these in. Where memory runs out some of them may be in, which a mark made before takes out.
    pub fn insert_all(&mut self, facts: &[Atom]) -> Result<(), AllocError>
        ensures all { OnOk result (self.new ≡ with_facts true facts.now self.old) }
        ensures later { IsLater self.old self.new }
    {
        self.set_all(facts, true)
    }

    /// Takes the fact out. True exactly where it was there.
    pub fn remove(&mut self, fact: &Atom) -> Result<bool, AllocError>
        ensures changed { IfOk result (λ changed. changed ≡ is_among (members self.old) fact.now) }
        ensures set { self.new ≡ (if is_ok result then with_fact false fact.now self.old else self.old) }
        ensures later { IsLater self.old self.new }
    {
        self.set(fact, false)
    }

    /// Takes out the terminated facts, and then puts in the initiated ones. Where memory runs out, the set stays as it is
    /// and the effects are given up.
    pub fn apply(&mut self, effects: Effects) -> Result<(), AllocError>
        ensures set { self.new ≡ (if is_ok result then with_effects effects self.old else self.old) }
        ensures later { IsLater self.old self.new }
    {
        let mark = self.mark();
        let done = self.make(&effects);
        if done.is_err() {
            self.undo_to(&mark);
        }
        done
    }

    /// Makes the effects, or a part of them where memory runs out.
    fn make(&mut self, effects: &Effects) -> Result<(), AllocError>
        ensures all { OnOk result (self.new ≡ with_effects effects.now self.old) }
        ensures later { IsLater self.old self.new }
    {
        self.set_all(effects.terminated.as_slice(), false)?;
        self.set_all(effects.initiated.as_slice(), true)
    }

    /// Puts in or takes out each of these, or a part of them where memory runs out.
    fn set_all(&mut self, facts: &[Atom], inserted: bool) -> Result<(), AllocError>
        ensures all { OnOk result (self.new ≡ with_facts inserted facts.now self.old) }
        ensures later { IsLater self.old self.new }
    {
        for fact in facts {
            self.set(fact, inserted)?;
        }
        Ok(())
    }

    /// Puts the fact in or takes it out, and notes that where it changes the set.
    fn set(&mut self, fact: &Atom, inserted: bool) -> Result<bool, AllocError>
        ensures changed { IfOk result (λ changed. changed ≡ will_change inserted (is_among (members self.old) fact.now)) }
        ensures set { self.new ≡ (if is_ok result then with_fact inserted fact.now self.old else self.old) }
        ensures later { IsLater self.old self.new }
    {
        if self.contains(fact) == inserted {
            return Ok(false);
        }
        self.note(fact, inserted)?;
        Ok(true)
    }

    /// Notes a change and makes it.
    fn note(&mut self, fact: &Atom, inserted: bool) -> Result<(), AllocError>
        requires { is_among (members self.now) fact.now ≡ not inserted }
        ensures { self.new ≡ (if is_ok result then then_change self.old inserted fact.now else self.old) }
    {
        let alloc = *self.trail.allocator();
        make_room(alloc, &mut self.entries, fact)?;
        let copy = copy_atom(alloc, fact)?;
        self.trail.push(Change {
            inserted,
            fact: copy,
        })?;
        set_present(&mut self.entries, fact, inserted);
        Ok(())
    }

    /// Takes back the last change.
    fn undo_last(&mut self)
        requires { 0 < length self.now.changes }
        ensures { self.new ≡ back_to (length self.old.changes - 1) self.old }
    {
        if let Some(change) = self.trail.pop() {
            set_present(&mut self.entries, &change.fact, !change.inserted);
        }
    }

    /// Takes the set back to the mark, which is one of this set that nothing was undone past. This takes no memory.
    pub fn undo_to(&mut self, mark: &Mark)
        requires mark { mark.now ≤ length self.now.changes }
        ensures back { self.new ≡ back_to mark.now self.old }
    {
        while self.trail.len() > mark.changes() {
            self.undo_last();
        }
    }

    /// Forgets how the set was before, so that there is nothing to take back: what is in it now is what it begins with. This takes
    /// no memory, and gives back that of the facts that were taken out.
    pub fn settle(&mut self)
        ensures { self.new ≡ record { base = members self.old; changes = [] } }
    {
        forget_absent(&mut self.entries, self.trail.as_slice());
        self.trail.truncate(0);
    }

    /// The facts that are instances of the pattern, in order, each once.
    pub fn matching(&self, alloc: Global, pattern: &Atom) -> Result<Vec<Atom>, AllocError>
        ensures instances { IfOk result (λ found. (fact : Atom) → IsTrue (is_among found.items fact) ↔ (IsTrue (is_among (members self.now) fact) × IsInstance pattern.now fact)) }
        ensures sorted { IfOk result (λ found. IsStrictlySortedBy atom_cmp found.items) }
    {
        copy_matching(alloc, &self.entries, pattern)
    }

    /// Appends the texts of all facts, in order: the first behind a space, and each later one behind a comma and a space.
    pub fn print(&self, out: &mut Vec<u8>) -> Result<(), AllocError>
        ensures { OnOk result (out.new.items ≡ out.old.items ++ listed_from false (members self.now)) }
    {
        print_present(&self.entries, out)
    }

    /// All facts, in order.
    pub fn sorted(&self, alloc: Global) -> Result<Vec<Atom>, AllocError>
        ensures all { IfOk result (λ facts. facts.items ≡ members self.now) }
        ensures sorted { IfOk result (λ facts. IsStrictlySortedBy atom_cmp facts.items) }
    {
        copy_present(alloc, &self.entries)
    }
}
