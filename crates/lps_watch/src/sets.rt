//! Sets of wakes in either order.
ghost use Rattle.std.specs.Prelude.{◌≡◌, ◌⊎◌, ◌↔◌, OnErr, OnOk, Contains};
ghost use Rattle.std.specs.Bool.{Decides};
ghost use Rattle.lps_watch.specs.declared.due.Due.{Due as Timed};
ghost use Rattle.lps_watch.specs.Watches.{Adds};

use crate::due::Due;
use lps_residual::{Awaited, Wake};
use std::alloc::AllocError;
use std::collections::BTreeSet;

/// Adds a wake, where it is new.
pub(crate) fn add_wake(wakes: &mut BTreeSet<Wake>, wake: Wake) -> Result<(), AllocError>
    ensures added { OnOk result (Adds wakes.old.keys wakes.new.keys (λ w. w ≡ wake)) }
    ensures err { OnErr result (wakes.new.keys ≡ wakes.old.keys) }
{
    wakes.insert(wake)?;
    Ok(())
}

/// Adds a wake by its time, where it is new.
pub(crate) fn add_due(dues: &mut BTreeSet<Due>, due: Due) -> Result<(), AllocError>
    ensures added { OnOk result ((d : Timed) → Contains dues.new.keys d ↔ (Contains dues.old.keys d ⊎ (d ≡ due))) }
    ensures err { OnErr result (dues.new.keys ≡ dues.old.keys) }
    ensures absent { OnErr result (Contains dues.old.keys due → ⊥) }
{
    dues.insert(due)?;
    Ok(())
}

/// Whether the same is awaited.
pub(crate) fn are_same(awaited: &Option<Awaited>, other: &Option<Awaited>) -> bool
    ensures { Decides result (awaited.now ≡ other.now) }
{
    *awaited == *other
}

/// Drops it. In a function of its own, what comes after needs no case for each form of a term.
pub(crate) fn discard(due: Due) {}
