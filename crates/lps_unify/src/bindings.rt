ghost use Rattle.std.specs.Prelude.{◌≡◌, ◌≤◌, ◌<◌, ◌+◌, ◌-◌, ◌^◌, ◌++◌, ◌∷◌, [], false, length, ◌↔◌, IfOk, IsTrue, OnErr, OnOk, MatchOption, is_ok, if◌then◌else◌};
ghost use Rattle.lps_terms.specs.Symbols.{symbols_of};
ghost use Rattle.lps_unify.specs.Weights.{IsWithin};
ghost use Rattle.lps_unify.specs.Bindings.{back_to, count_of, resolved, standing, IsBindable, IsLawful};
ghost use Rattle.lps_unify.specs.Slots.{IsBound, IsFree};
ghost use Rattle.lps_unify.specs.Unified.{UnifiesOn};

use crate::added::Added;
use crate::mark::BindMark;
use crate::resolve::{resolve_term, room_after};
use crate::slots::add_free;
use crate::unify::join;
use crate::within::is_within;
use lps_terms::Term;
use std::alloc::{AllocError, Global};
use std::marker::Model;

/// Variables, numbered from 0, some of them bound to terms. Contracts see how many variables there were first, and what
/// was added since.
#[derive(Drop)]
pub struct Bindings {
    first: u32,
    /// For each variable that is bound, which addition binds it.
    slots: Vec<Option<usize>>,
    added: Vec<Added>,
}

impl Model for Bindings {
    ghost use Rattle.lps_unify.specs.contracts.added.Added as entry;
    ghost use Rattle.std.specs.Coded.{codes};
    ghost use Rattle.lps_unify.specs.Bindings.{TrailedBindings};
    ghost use Rattle.lps_unify.specs.Slots.{IsKept};

    ghost Value = { TrailedBindings };

    ghost coded = { Prim.hlevel (codes, entry.the_row.coded) };

    ghost view = { λ b. record { first = b.first; added = b.added.items } };

    ghost invariant = { λ b. IsKept b.slots.items (record { first = b.first; added = b.added.items }) };
}

impl Bindings {
    /// So many variables, none of them bound.
    pub fn new(alloc: Global, variables: u32) -> Result<Bindings, AllocError>
        ensures first { IfOk result (λ b. b.first ≡ variables) }
        ensures added { IfOk result (λ b. b.added ≡ []) }
    {
        let mut slots = Vec::new(alloc);
        add_free(&mut slots, variables)?;
        Ok(Bindings {
            first: variables,
            slots,
            added: Vec::new(alloc),
        })
    }

    /// How many variables there are.
    pub fn count(&self) -> usize
        ensures { result ≡ count_of self.now }
    {
        self.slots.len()
    }

    /// Whether each variable of the term is one of these.
    pub fn has(&self, term: &Term) -> bool
        ensures { IsTrue result ↔ IsWithin (count_of self.now) term.now }
    {
        is_within(self.count(), term)
    }

    /// Adds unbound variables, and answers the number of the first of them.
    pub fn extend(&mut self, more: u32) -> Result<u32, AllocError>
        requires { count_of self.now + more < 2 ^ 32 }
        ensures first { IfOk result (λ variable. variable ≡ count_of self.old) }
        ensures added { self.new ≡ (if is_ok result then record { first = self.old.first; added = self.old.added ++ Added.More more ∷ [] } else self.old) }
    {
        let first = self.slots.len();
        add_free(&mut self.slots, more)?;
        let done = self.added.push(Added::More(more));
        if done.is_err() {
            self.slots.truncate(first);
            return Err(AllocError);
        }
        Ok(first as u32)
    }

    /// This moment, to which `undo_to` leads back.
    pub fn mark(&self) -> BindMark
        ensures { result ≡ length self.now.added }
    {
        BindMark::new(self.added.len())
    }

    /// Takes back what was added since the mark, which is one of these bindings that nothing was undone past. This takes
    /// no memory.
    pub fn undo_to(&mut self, mark: &BindMark)
        requires mark { mark.now ≤ length self.now.added }
        ensures back { self.new ≡ back_to mark.now self.old }
    {
        while self.added.len() > mark.added() {
            self.undo_last();
        }
    }

    /// Takes back the last addition.
    fn undo_last(&mut self)
        requires { 0 < length self.now.added }
        ensures { self.new ≡ back_to (length self.old.added - 1) self.old }
    {
        match self.added.pop() {
            Some(Added::Bind(variable, term)) => {
                discard(term);
                self.slots[variable as usize] = None;
            }
            Some(Added::More(more)) => {
                let left = self.slots.len() - more as usize;
                self.slots.truncate(left);
            }
            None => {}
        }
    }

    /// Adds a most general unifier of the terms. False comes exactly where there is none, and leaves the bindings as they
    /// were, as an error does. Each variable of the terms is one of these.
    pub fn unify(&mut self, a: &Term, b: &Term) -> Result<bool, AllocError>
        requires left { IsWithin (count_of self.now) a.now }
        requires right { IsWithin (count_of self.now) b.now }
        ensures answer { IfOk result (λ found. UnifiesOn found self.old self.new a.now b.now) }
        ensures err { OnErr result (self.new ≡ self.old) }
    {
        let alloc = *self.added.allocator();
        let mark = self.mark();
        match join(alloc, self, a, b) {
            Ok(true) => Ok(true),
            Ok(false) => {
                self.undo_to(&mark);
                Ok(false)
            }
            Err(error) => {
                self.undo_to(&mark);
                Err(error)
            }
        }
    }

    /// The term with the bindings put in for its variables, each of which is one of these.
    pub fn resolve(&self, term: &Term) -> Result<Term, AllocError>
        requires { IsWithin (count_of self.now) term.now }
        ensures { IfOk result (λ found. found ≡ resolved self.now term.now) }
    {
        let alloc = *self.added.allocator();
        resolve_term(alloc, self, term)
    }

    /// Whether `resolve` of the term has at most 1,024 symbols. This takes no memory. Each variable of the term is one of
    /// these.
    pub fn fits(&self, term: &Term) -> bool
        requires { IsWithin (count_of self.now) term.now }
        ensures { IsTrue result ↔ (symbols_of (resolved self.now term.now) ≤ 1024) }
    {
        room_after(self, term, 1024).is_some()
    }

    /// What holds of all bindings.
    pub fn lawful(&self)
        ensures { IsLawful self.now }
    {
        let _ = &self.first;
    }

    /// The term that the variable is bound to.
    pub(crate) fn bound(&self, variable: u32) -> Option<&Term>
        requires { variable < count_of self.now }
        ensures { MatchOption result (IsFree self.now variable) (λ term. IsBound self.now variable term.now) }
    {
        let entry = self.slots[variable as usize]?;
        match &self.added[entry] {
            Added::Bind(_, term) => Some(term),
            Added::More(_) => None,
        }
    }

    /// Whether the variable is bound.
    pub(crate) fn is_bound(&self, variable: u32) -> bool
        requires { variable < count_of self.now }
        ensures { result ≡ false → IsFree self.now variable }
    {
        self.bound(variable).is_some()
    }

    /// Binds the variable.
    pub(crate) fn bind(&mut self, variable: u32, term: Term) -> Result<(), AllocError>
        requires { IsBindable (standing self.now) variable term }
        ensures { self.new ≡ (if is_ok result then record { first = self.old.first; added = self.old.added ++ Added.Bind variable term ∷ [] } else self.old) }
    {
        let entry = self.added.len();
        self.added.push(Added::Bind(variable, term))?;
        self.slots[variable as usize] = Some(entry);
        Ok(())
    }
}

fn discard(_term: Term) {}
