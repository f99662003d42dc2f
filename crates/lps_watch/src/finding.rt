//! Which wakes are found. A walk begins at the first that is asked for, and ends at the first that is not.
ghost use Rattle.std.specs.Prelude.{◌≡◌, ◌≤◌, OnOk, Contains, Some};
ghost use Rattle.lps_residual.specs.Waking.{IsAwaitedAmong};
ghost use Rattle.lps_watch.specs.Watches.{Adds, IsFor, due_of};

use crate::copying::{copy_awaited, copy_wake};
use crate::due::Due;
use crate::sets::{add_wake, are_same};
use lps_residual::{Awaited, Wake};
use lps_terms::{Atom, copy_term};
use std::alloc::{AllocError, Global};
use std::collections::BTreeSet;

/// Adds the wakes that await one of the events.
pub(crate) fn find_events(
    alloc: Global,
    wakes: &BTreeSet<Wake>,
    events: &[Atom],
    found: &mut BTreeSet<Wake>,
) -> Result<(), AllocError>
    ensures { OnOk result (Adds found.old.keys found.new.keys (λ w. Contains wakes.now.keys w × IsAwaitedAmong w.awaited events.now)) }
{
    for event in events {
        find_event(alloc, wakes, event, found)?;
    }
    Ok(())
}

/// Adds the wakes that await the event, by its name alone or by its first argument too.
fn find_event(
    alloc: Global,
    wakes: &BTreeSet<Wake>,
    event: &Atom,
    found: &mut BTreeSet<Wake>,
) -> Result<(), AllocError>
    ensures { OnOk result (Adds found.old.keys found.new.keys (λ w. Contains wakes.now.keys w × IsFor event.now w)) }
{
    let name = event.name.copy(alloc)?;
    find_awaiting(alloc, wakes, Awaited { name, first: None }, found)?;
    let Some(first) = event.args.as_slice().first() else {
        return Ok(());
    };
    let name = event.name.copy(alloc)?;
    let first = Some(copy_term(alloc, first)?);
    find_awaiting(alloc, wakes, Awaited { name, first }, found)?;
    Ok(())
}

/// Adds the wakes that await just this. They lie side by side.
fn find_awaiting(
    alloc: Global,
    wakes: &BTreeSet<Wake>,
    awaited: Awaited,
    found: &mut BTreeSet<Wake>,
) -> Result<(), AllocError>
    ensures { OnOk result (Adds found.old.keys found.new.keys (λ w. Contains wakes.now.keys w × (w.awaited ≡ Some awaited))) }
{
    let least = Wake {
        awaited: Some(awaited),
        due: 0,
    };
    for wake in wakes.range(&least..) {
        if !are_same(&wake.awaited, &least.awaited) {
            return Ok(());
        }
        add_wake(found, copy_wake(alloc, wake)?)?;
    }
    Ok(())
}

/// Adds the wakes that are due.
pub(crate) fn find_due(
    alloc: Global,
    dues: &BTreeSet<Due>,
    time: u64,
    found: &mut BTreeSet<Wake>,
) -> Result<(), AllocError>
    ensures { OnOk result (Adds found.old.keys found.new.keys (λ w. Contains dues.now.keys (due_of w) × (w.due ≤ time))) }
{
    for due in dues {
        if due.time > time {
            return Ok(());
        }
        let awaited = copy_awaited(alloc, &due.awaited)?;
        add_wake(
            found,
            Wake {
                awaited,
                due: due.time,
            },
        )?;
    }
    Ok(())
}
