//! Those that wait, in buckets by what wakes them.
ghost use Rattle.std.specs.Prelude.{◌≡◌, ◌++◌, [], ◌∷◌, true, false, is_some, map, IfOk, IsTrue, List, OnErr, OnOk, Contains};
ghost use Rattle.std.specs.BTreeMap.{get_by};
ghost use Rattle.std.specs.List.Sorted.{IsStrictlySortedBy};
ghost use Rattle.std.specs.Map.{keys_of};
ghost use Rattle.lps_terms.specs.declared.text.Text.{Text};
ghost use Rattle.lps_residual.specs.Moments.{IsReady};
ghost use Rattle.lps_watch.specs.Orders.{wake_cmp};
ghost use Rattle.lps_residual.specs.declared.waking.Wake.{Wake as Woken};
ghost use Rattle.lps_antecedents.specs.declared.held.Held.{Held as One};
ghost use Rattle.lps_antecedents.specs.declared.slot.Slot.{Slot as Place};
ghost use Rattle.lps_antecedents.specs.Buckets.{AreReadyIn, AreSwitched, IsPut, IsSound, IsSoundOf, LiesIn, kept, set_at, slots_of, waited, waiting};
ghost use Rattle.lps_antecedents.specs.Gathered.{Gains};
ghost use Rattle.lps_antecedents.specs.Slots.{left_settled, switched, waiting_in};

use crate::held::Held;
use crate::slot::{Slot, add, settle, switch};
use lps_residual::{Wake, wake_of};
use lps_solve::Program;
use lps_watch::{Watch, copy_wake};
use std::alloc::{AllocError, Global};
use std::collections::BTreeMap;

/// Those that wait, in buckets by what wakes them. Equal ones lie in the same bucket.
#[derive(Drop)]
pub(crate) struct Buckets {
    pub by_wake: BTreeMap<Wake, Vec<Slot>>,
    /// Has the wake of each bucket.
    pub watch: Watch,
    /// The wakes of the buckets that the last cycle may have changed.
    pub changed: Vec<Wake>,
}

impl Buckets {
    pub(crate) fn new(alloc: Global) -> Buckets
        ensures slots { slots_of result.by_wake ≡ [] }
        ensures changed { result.changed.items ≡ [] }
    {
        Buckets {
            by_wake: BTreeMap::new(alloc),
            watch: Watch::new(alloc),
            changed: Vec::new(alloc),
        }
    }

    /// Forgets what waited before: from now on that is what waits. This takes no memory, and gives back that of what does not wait.
    pub(crate) fn settle(&mut self)
        requires sound { IsSoundOf self.old }
        ensures sound { IsSoundOf self.new }
        ensures waits { waiting (slots_of self.new.by_wake) ≡ waiting (slots_of self.old.by_wake) }
        ensures ready { (text : Text) → AreReadyIn text (kept (slots_of self.old.by_wake)) → AreReadyIn text (kept (slots_of self.new.by_wake)) }
        ensures changed { self.new.changed.items ≡ [] }
    {
        let Buckets {
            by_wake,
            watch,
            changed,
        } = self;
        settle_all(by_wake, watch, changed.as_slice());
        changed.truncate(0);
    }

    /// What waited before waits again. This takes no memory.
    pub(crate) fn restore(&mut self)
        requires sound { IsSoundOf self.old }
        ensures sound { IsSoundOf self.new }
        ensures waits { waiting (slots_of self.new.by_wake) ≡ waited (slots_of self.old.by_wake) }
        ensures kept { kept (slots_of self.new.by_wake) ≡ kept (slots_of self.old.by_wake) }
    {
        switch_all(&mut self.by_wake, self.changed.as_slice(), true);
    }

    /// Puts one in that waits, where it is new. Where memory runs out it may be in, and `restore` takes it out.
    pub(crate) fn put(
        &mut self,
        alloc: Global,
        program: &Program,
        held: Held,
    ) -> Result<(), AllocError>
        requires ready { IsReady program.now held.node }
        requires sound { IsSoundOf self.old }
        requires kept { AreReadyIn program.now (kept (slots_of self.old.by_wake)) }
        ensures waits { OnOk result (Gains (waiting (slots_of self.old.by_wake)) (waiting (slots_of self.new.by_wake)) (λ h. h ≡ held)) }
        ensures waited { waited (slots_of self.new.by_wake) ≡ waited (slots_of self.old.by_wake) }
        ensures sound { IsSoundOf self.new }
        ensures kept { AreReadyIn program.now (kept (slots_of self.new.by_wake)) }
    {
        let wake = wake_of(alloc, program.text(), &held.node)?;
        self.changed.push(copy_wake(alloc, &wake)?)?;
        put_at(alloc, &mut self.by_wake, &mut self.watch, wake, held)?;
        Ok(())
    }

    /// Those that wait.
    pub(crate) fn waiting(&self, alloc: Global) -> Result<Vec<&Held>, AllocError>
        ensures { IfOk result (λ all. map (λ h. h.now) all.items ≡ waiting (slots_of self.now.by_wake)) }
    {
        let mut all = Vec::new(alloc);
        for (_, slots) in self.by_wake.iter() {
            collect(slots.as_slice(), &mut all)?;
        }
        Ok(all)
    }
}

/// Adds those that wait.
fn collect<'a>(slots: &'a [Slot], all: &mut Vec<&'a Held>) -> Result<(), AllocError>
    ensures { OnOk result (map (λ h. h.now) all.new.items ≡ map (λ h. h.now) all.old.items ++ waiting_in slots.now) }
{
    for slot in slots {
        if slot.waits {
            all.push(&slot.held)?;
        }
    }
    Ok(())
}

/// Puts those in that wait, where they are new. Where memory runs out some may be in, and `restore` takes them out.
pub(crate) fn put_all(
    alloc: Global,
    program: &Program,
    buckets: &mut Buckets,
    all: Vec<Held>,
) -> Result<(), AllocError>
    requires ready { (h : One) → Contains all.items h → IsReady program.now h.node }
    requires sound { IsSoundOf buckets.old }
    requires kept { AreReadyIn program.now (kept (slots_of buckets.old.by_wake)) }
    ensures waits { OnOk result (Gains (waiting (slots_of buckets.old.by_wake)) (waiting (slots_of buckets.new.by_wake)) (Contains all.items)) }
    ensures waited { waited (slots_of buckets.new.by_wake) ≡ waited (slots_of buckets.old.by_wake) }
    ensures sound { IsSoundOf buckets.new }
    ensures kept { AreReadyIn program.now (kept (slots_of buckets.new.by_wake)) }
{
    for held in all {
        buckets.put(alloc, program, held)?;
    }
    Ok(())
}

/// Switches those in the buckets of these wakes that waited before on, or off.
pub(crate) fn switch_all(by_wake: &mut BTreeMap<Wake, Vec<Slot>>, wakes: &[Wake], on: bool)
    requires { IsStrictlySortedBy wake_cmp (keys_of (slots_of by_wake.old)) }
    ensures { AreSwitched on wakes.now (slots_of by_wake.old) (slots_of by_wake.new) }
{
    for wake in wakes {
        switch_at(by_wake, wake, on);
    }
}

fn switch_at(by_wake: &mut BTreeMap<Wake, Vec<Slot>>, wake: &Wake, on: bool)
    ensures { slots_of by_wake.new ≡ set_at (map (switched on)) wake.now (slots_of by_wake.old) }
{
    if let Some(slots) = by_wake.get_mut(wake) {
        switch(slots, on);
    }
}

fn settle_all(by_wake: &mut BTreeMap<Wake, Vec<Slot>>, watch: &mut Watch, changed: &[Wake])
    requires { IsSound (slots_of by_wake.old) watch.old changed.now }
    ensures sound { IsSound (slots_of by_wake.new) watch.new [] }
    ensures waits { waiting (slots_of by_wake.new) ≡ waiting (slots_of by_wake.old) }
    ensures ready { (text : Text) → AreReadyIn text (kept (slots_of by_wake.old)) → AreReadyIn text (kept (slots_of by_wake.new)) }
{
    for wake in changed {
        settle_at(by_wake, watch, wake);
    }
}

/// Settles the bucket of a wake, and takes it away where nothing is left in it.
fn settle_at(by_wake: &mut BTreeMap<Wake, Vec<Slot>>, watch: &mut Watch, wake: &Wake)
    requires { IsStrictlySortedBy wake_cmp (keys_of (slots_of by_wake.old)) }
    ensures sound { (rest : List Woken) → IsSound (slots_of by_wake.old) watch.old (wake.now ∷ rest) → IsSound (slots_of by_wake.new) watch.new rest }
    ensures waits { waiting (slots_of by_wake.new) ≡ waiting (slots_of by_wake.old) }
    ensures ready { (text : Text) → AreReadyIn text (kept (slots_of by_wake.old)) → AreReadyIn text (kept (slots_of by_wake.new)) }
{
    if settle_bucket(by_wake, wake) {
        by_wake.remove(wake);
        watch.remove(wake);
    }
}

/// Settles the bucket of a wake. True where nothing is left in it.
fn settle_bucket(by_wake: &mut BTreeMap<Wake, Vec<Slot>>, wake: &Wake) -> bool
    requires { IsStrictlySortedBy wake_cmp (keys_of (slots_of by_wake.old)) }
    ensures slots { slots_of by_wake.new ≡ set_at left_settled wake.now (slots_of by_wake.old) }
    ensures nothing { IsTrue result → (slot : Place) → LiesIn (slots_of by_wake.new) wake.now slot → ⊥ }
{
    match by_wake.get_mut(wake) {
        Some(slots) => {
            settle(slots);
            slots.is_empty()
        }
        None => true,
    }
}

/// Puts one that waits into the bucket of its wake, where it is new there.
fn put_at(
    alloc: Global,
    by_wake: &mut BTreeMap<Wake, Vec<Slot>>,
    watch: &mut Watch,
    wake: Wake,
    held: Held,
) -> Result<(), AllocError>
    requires { IsStrictlySortedBy wake_cmp (keys_of (slots_of by_wake.old)) }
    ensures put { OnOk result (IsPut wake held (slots_of by_wake.old) (slots_of by_wake.new)) }
    ensures err { OnErr result (slots_of by_wake.new ≡ slots_of by_wake.old) }
    ensures watched { OnOk result (Contains watch.new wake) }
    ensures others { (other : Woken) → Contains watch.old other → Contains watch.new other }
{
    watch.insert(alloc, &wake)?;
    if by_wake.contains_key(&wake) {
        add_at(by_wake, &wake, held)?;
    } else {
        open(alloc, by_wake, wake, held)?;
    }
    Ok(())
}

fn add_at(
    by_wake: &mut BTreeMap<Wake, Vec<Slot>>,
    wake: &Wake,
    held: Held,
) -> Result<(), AllocError>
    requires sorted { IsStrictlySortedBy wake_cmp (keys_of (slots_of by_wake.old)) }
    requires there { is_some (get_by (wake_cmp wake.now) by_wake.old) ≡ true }
    ensures put { OnOk result (IsPut wake.now held (slots_of by_wake.old) (slots_of by_wake.new)) }
    ensures err { OnErr result (slots_of by_wake.new ≡ slots_of by_wake.old) }
{
    if let Some(slots) = by_wake.get_mut(wake) {
        add(slots, held)?;
    }
    Ok(())
}

/// Opens a bucket.
fn open(
    alloc: Global,
    by_wake: &mut BTreeMap<Wake, Vec<Slot>>,
    wake: Wake,
    held: Held,
) -> Result<(), AllocError>
    requires sorted { IsStrictlySortedBy wake_cmp (keys_of (slots_of by_wake.old)) }
    requires new { is_some (get_by (wake_cmp wake) by_wake.old) ≡ false }
    ensures put { OnOk result (IsPut wake held (slots_of by_wake.old) (slots_of by_wake.new)) }
    ensures err { OnErr result (slots_of by_wake.new ≡ slots_of by_wake.old) }
{
    let mut slots = Vec::new(alloc);
    slots.push(Slot {
        held,
        waited: false,
        waits: true,
    })?;
    by_wake.insert(wake, slots)?;
    Ok(())
}
