ghost use Rattle.std.specs.Prelude.{◌≡◌, ◌⊎◌, ◌↔◌, [], IfOk, OnErr, OnOk, Contains};
ghost use Rattle.lps_residual.specs.declared.waking.Wake.{Wake as Woken};
ghost use Rattle.lps_residual.specs.Waking.{IsTouched};
ghost use Rattle.lps_watch.specs.Watches.{AreOnce};

use crate::copying::{copy_awaited, copy_wake};
use crate::due::Due;
use crate::finding::{find_due, find_events};
use crate::sets::{add_due, add_wake, discard};
use lps_residual::Wake;
use lps_terms::Atom;
use std::alloc::{AllocError, Global};
use std::collections::BTreeSet;
use std::marker::Model;

/// A set of wakes. Contracts see them as a list.
#[derive(Drop)]
pub struct Watch {
    by_event: BTreeSet<Wake>,
    by_due: BTreeSet<Due>,
}

impl Model for Watch {
    ghost use Rattle.lps_terms.specs.contracts.term.Term as term;
    ghost use Rattle.std.specs.Coded.{codes};
    ghost use Rattle.std.specs.Prelude.{List};
    ghost use Rattle.lps_residual.specs.declared.waking.Wake.{Wake as Woken};
    ghost use Rattle.lps_watch.specs.Watches.{Agree};

    ghost Value = { List Woken };

    ghost coded = { Prim.hlevel (codes, term.the_row.coded) };

    ghost view = { λ it. it.by_event.keys };

    ghost invariant = { λ it. Agree it.by_event.keys it.by_due.keys };
}

impl Watch {
    /// No wakes.
    pub fn new(alloc: Global) -> Watch
        ensures { result ≡ [] }
    {
        Watch {
            by_event: BTreeSet::new(alloc),
            by_due: BTreeSet::new(alloc),
        }
    }

    /// Adds a wake, where it is new. Where memory runs out, the set is as it was.
    pub fn insert(&mut self, alloc: Global, wake: &Wake) -> Result<(), AllocError>
        ensures added { OnOk result ((w : Woken) → Contains self.new w ↔ (Contains self.old w ⊎ (w ≡ wake.now))) }
        ensures err { OnErr result ((w : Woken) → Contains self.new w ↔ Contains self.old w) }
    {
        let due = Due {
            time: wake.due,
            awaited: copy_awaited(alloc, &wake.awaited)?,
        };
        add_wake(&mut self.by_event, copy_wake(alloc, wake)?)?;
        if let Err(error) = add_due(&mut self.by_due, due) {
            self.by_event.remove(wake);
            return Err(error);
        }
        Ok(())
    }

    /// Takes a wake out, where it is there. This takes no memory.
    pub fn remove(&mut self, wake: &Wake)
        ensures { (w : Woken) → Contains self.new w ↔ (Contains self.old w × (w ≡ wake.now → ⊥)) }
    {
        let Some(Wake { awaited, due }) = self.by_event.take(wake) else {
            return;
        };
        let due = Due { time: due, awaited };
        self.by_due.remove(&due);
        discard(due);
    }

    /// The wakes that a cycle touches, which ends at this time and has these events: those that are due, and those that await one of
    /// the events. Only these are looked at.
    pub fn touched(
        &self,
        alloc: Global,
        time: u64,
        events: &[Atom],
    ) -> Result<Vec<Wake>, AllocError>
        ensures exact { IfOk result (λ found. (w : Woken) → Contains found.items w ↔ (Contains self.now w × IsTouched w time events.now)) }
        ensures once { IfOk result (λ found. AreOnce found.items) }
    {
        let mut found = BTreeSet::new(alloc);
        find_events(alloc, &self.by_event, events, &mut found)?;
        find_due(alloc, &self.by_due, time, &mut found)?;
        in_order(alloc, found)
    }
}

/// The wakes of a set, in order.
fn in_order(alloc: Global, found: BTreeSet<Wake>) -> Result<Vec<Wake>, AllocError>
    ensures all { IfOk result (λ wakes. wakes.items ≡ found.keys) }
    ensures once { IfOk result (λ wakes. AreOnce wakes.items) }
{
    let mut wakes = Vec::new(alloc);
    for wake in found {
        wakes.push(wake)?;
    }
    Ok(wakes)
}
