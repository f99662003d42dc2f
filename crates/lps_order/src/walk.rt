ghost use Rattle.std.specs.Prelude.{◌≡◌, ◌&&◌, ◌∷◌, List, IfOk, Some, true};
ghost use Rattle.lps_terms.specs.declared.item.Item.{Item as Piece};
ghost use Rattle.lps_model.specs.Declarations.{kind_among};
ghost use Rattle.lps_model.specs.Order.{is_time, may_begin, may_end};
ghost use Rattle.lps_order.specs.Walking.{noted, walks};

use crate::happening::{Happening, are_joined, happening_in};
use crate::times::{note, occurs};
use lps_model::Kinds;
use lps_terms::Item;
use std::alloc::AllocError;

/// Where a walk along the items of a sequence stands.
#[derive(Drop)]
pub(crate) struct Walk {
    /// The times that have occurred, each once.
    pub occurred: Vec<u32>,
    /// When the step before ended.
    pub before: Option<u32>,
    /// The item just before, where it is an event or an action.
    pub prior: Option<Happening>,
}

impl Walk {
    /// Whether all these items are in order, each after those before it.
    pub(crate) fn walks(&mut self, items: &[Item], kinds: &Kinds) -> Result<bool, AllocError>
        ensures { IfOk result (λ right. right ≡ walks (kind_among kinds.now) self.old.occurred.items self.old.before self.old.prior items.now) }
    {
        for item in items {
            if !self.passes(item, kinds)? {
                return Ok(false);
            }
        }
        Ok(true)
    }

    /// Whether an item is in order after those before it; if so, the walk stands behind it.
    fn passes(&mut self, item: &Item, kinds: &Kinds) -> Result<bool, AllocError>
        ensures { (rest : List Piece) → IfOk result (λ right. walks (kind_among kinds.now) self.old.occurred.items self.old.before self.old.prior (item.now ∷ rest)
            ≡ (right && walks (kind_among kinds.now) self.new.occurred.items self.new.before self.new.prior rest)) }
    {
        let now = happening_in(item, kinds);
        let joined = are_joined(self.prior, now);
        self.prior = now;
        if joined {
            return Ok(true);
        }
        match item {
            Item::At(_, time) => self.steps(time.0, time.0, false),
            Item::Span(_, from, to) => self.steps(from.0, to.0, true),
            _ => Ok(true),
        }
    }

    /// Whether a step is in order after those before it; if so, the walk stands behind it.
    fn steps(&mut self, begin: u32, end: u32, has_end: bool) -> Result<bool, AllocError>
        ensures right { IfOk result (λ right. right ≡ (may_begin self.old.occurred.items self.old.before begin && may_end self.old.occurred.items (record { begin = begin; end = end; has_end = has_end }))) }
        ensures occurred { IfOk result (λ right. right ≡ true → self.new.occurred.items ≡ noted (noted self.old.occurred.items begin) end) }
        ensures before { IfOk result (λ right. right ≡ true → self.new.before ≡ Some end) }
        ensures prior { self.new.prior ≡ self.old.prior }
    {
        if !self.may_begin(begin) || !self.may_end(begin, end, has_end) {
            return Ok(false);
        }
        note(&mut self.occurred, begin)?;
        note(&mut self.occurred, end)?;
        self.before = Some(end);
        Ok(true)
    }

    /// Whether a step may begin then: at a time that has not occurred, or at the end of the step before.
    fn may_begin(&self, time: u32) -> bool
        ensures { result ≡ may_begin self.now.occurred.items self.now.before time }
    {
        !occurs(time, self.occurred.as_slice()) || is_time(self.before, time)
    }

    /// Whether a step may end then, if it has an end of its own: at a time that has not occurred and is not its begin.
    fn may_end(&self, begin: u32, end: u32, has_end: bool) -> bool
        ensures { result ≡ may_end self.now.occurred.items (record { begin = begin; end = end; has_end = has_end }) }
    {
        !has_end || (!occurs(end, self.occurred.as_slice()) && begin != end)
    }
}

/// Whether a time is this one, where there is one.
pub(crate) fn is_time(found: Option<u32>, time: u32) -> bool
    ensures { result ≡ is_time found time }
{
    match found {
        Some(t) => t == time,
        None => false,
    }
}
