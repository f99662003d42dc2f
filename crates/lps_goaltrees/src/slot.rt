//! A goal as it is now, and as it was before the last changes.
ghost use Rattle.std.specs.Prelude.{◌≡◌, Some, option_copied};
ghost use Rattle.lps_goaltrees.specs.declared.slot.Versions.TheVariants.{Changed, Same};
ghost use Rattle.lps_goaltrees.specs.declared.slot.Which.TheVariants.{Before};
ghost use Rattle.lps_goaltrees.specs.Slots.{changed_by, closed_versions, dropped_by, is_used, new_slot, other_version, pending_only, version};

use crate::goal::Goal;
use std::mem::replace;

/// One of two versions of a goal.
#[derive(Clone, Copy)]
pub(crate) enum Which {
    Now,
    Before,
}

/// What is done to a goal.
#[derive(Drop)]
pub(crate) enum Change {
    /// One version is kept, and the other is dropped.
    Settle(Which),
    /// The goal is this one now.
    Put(Goal),
    /// Where it was changed and is no longer pending, it is dropped now.
    Close,
    /// What was dropped is cleaned up.
    Clean,
}

/// A goal as it is now and as it was before the last changes, where it was pursued then.
#[derive(Drop)]
pub(crate) enum Versions {
    Same(Option<Goal>),
    Changed {
        before: Option<Goal>,
        now: Option<Goal>,
    },
}

impl Versions {
    /// One of the versions.
    pub(crate) fn get(&self, which: Which) -> Option<&Goal>
        ensures { option_copied result ≡ version which self.now }
    {
        match self {
            Versions::Same(goal) => goal.as_ref(),
            Versions::Changed { before, now } => match which {
                Which::Now => now.as_ref(),
                Which::Before => before.as_ref(),
            },
        }
    }

    /// One of the versions, and the other where they differ.
    fn split(self, which: Which) -> (Option<Goal>, Option<Goal>)
        ensures kept { result.0 ≡ version which self }
        ensures dropped { result.1 ≡ other_version which self }
    {
        match self {
            Versions::Same(goal) => (goal, None),
            Versions::Changed { before, now } => match which {
                Which::Now => (now, before),
                Which::Before => (before, now),
            },
        }
    }

    /// A closed goal is dropped, where it was changed.
    fn closed(self) -> Versions
        ensures { result ≡ closed_versions self }
    {
        match self {
            Versions::Same(goal) => Versions::Same(goal),
            Versions::Changed { before, now } => Versions::Changed {
                before,
                now: pending_only(now),
            },
        }
    }
}

/// The goal, where it is pending.
fn pending_only(goal: Option<Goal>) -> Option<Goal>
    ensures { result ≡ pending_only goal }
{
    match goal {
        None => None,
        Some(goal) => { if goal.is_pending() { Some(goal) } else { None } }
    }
}

/// The versions of the goal with a number.
#[derive(Drop)]
pub(crate) struct Slot {
    pub number: u64,
    pub versions: Versions,
    /// The version that was dropped last, while what woke it is still found by it.
    pub dropped: Option<Goal>,
}

impl Slot {
    /// A goal that is new.
    pub(crate) fn new(goal: Goal) -> Slot
        ensures { result ≡ new_slot goal }
    {
        Slot {
            number: goal.goal.0,
            versions: Versions::Changed {
                before: None,
                now: Some(goal),
            },
            dropped: None,
        }
    }

    /// Whether there is a version.
    pub(crate) fn is_used(&self) -> bool
        ensures { result ≡ is_used self.now }
    {
        match &self.versions {
            Versions::Same(None) => false,
            Versions::Same(Some(_)) => true,
            Versions::Changed { before: _, now: _ } => true,
        }
    }

    pub(crate) fn change(&mut self, change: Change)
        ensures number { self.new.number ≡ self.old.number }
        ensures versions { self.new.versions ≡ changed_by change self.old.versions }
        ensures dropped { self.new.dropped ≡ dropped_by change self.old }
    {
        match change {
            Change::Settle(which) => self.settle(which),
            Change::Put(goal) => self.put(goal),
            Change::Close => self.close(),
            Change::Clean => self.dropped = None,
        }
    }

    fn settle(&mut self, which: Which)
        ensures number { self.new.number ≡ self.old.number }
        ensures versions { self.new.versions ≡ Same (version which self.old.versions) }
        ensures dropped { self.new.dropped ≡ other_version which self.old.versions }
    {
        let versions = replace(&mut self.versions, Versions::Same(None));
        let (kept, dropped) = versions.split(which);
        self.versions = Versions::Same(kept);
        self.dropped = dropped;
    }

    fn put(&mut self, goal: Goal)
        ensures number { self.new.number ≡ self.old.number }
        ensures versions { self.new.versions ≡ Changed (version Before self.old.versions) (Some goal) }
        ensures dropped { self.new.dropped ≡ self.old.dropped }
    {
        let versions = replace(&mut self.versions, Versions::Same(None));
        let (before, _) = versions.split(Which::Before);
        self.versions = Versions::Changed {
            before,
            now: Some(goal),
        };
    }

    fn close(&mut self)
        ensures number { self.new.number ≡ self.old.number }
        ensures versions { self.new.versions ≡ closed_versions self.old.versions }
        ensures dropped { self.new.dropped ≡ self.old.dropped }
    {
        let versions = replace(&mut self.versions, Versions::Same(None));
        self.versions = versions.closed();
    }
}
