ghost use Rattle.std.specs.Prelude.{◌≡◌, [], List, ℕ, Some, is_err, OnOk, OnErr};
ghost use Rattle.lps_outside.specs.Bytes.{Appends, AppendsFront};
ghost use Rattle.lps_outside.specs.Causes.{HasCause};
ghost use Rattle.lps_memworld.specs.Calls.{counted, no_calls};
ghost use Rattle.lps_memworld.specs.Prints.{FailingPrint, Prints, Adds};

use crate::calls::CallCounter;
use lps_outside::{Desk, Fault};
use std::alloc::Global;
use std::marker::Model;

/// What is printed, kept in memory, with calls that fail.
#[derive(Drop)]
pub struct MemDesk {
    printed: Vec<u8>,
    calls: CallCounter,
}

impl Model for MemDesk {
    ghost use Rattle.std.specs.Prelude.{vec_capacity};
    ghost use Rattle.lps_memworld.specs.Prints.{FailingPrint};

    ghost Value = { FailingPrint };

    ghost view = { λ it. record {
      printed = it.printed.items;
      room = vec_capacity it.printed;
      calls = it.calls;
    } };
}

impl MemDesk {
    /// A desk where nothing is printed yet, and the numbers of the calls that fail, counted from 1.
    pub fn new(alloc: Global, fails: Vec<u64>) -> MemDesk
        ensures printed { result.printed ≡ [] }
        ensures calls { result.calls ≡ no_calls fails.items }
    {
        MemDesk {
            printed: Vec::new(alloc),
            calls: CallCounter::new(fails),
        }
    }

    /// What was printed so far.
    pub fn printed(&self) -> &[u8]
        ensures { result.now ≡ self.now.printed }
    {
        self.printed.as_slice()
    }
}

impl Desk for MemDesk {
    ghost printed = { λ it. Some it.printed };

    ghost print_faults = { λ it. it.calls.faults };

    /// Fails at the calls that are listed, with the first half of the bytes out.
    ///
    /// Where memory is refused, it fails too, and nothing of the bytes is out.
    fn print(&mut self, bytes: &[u8]) -> Result<(), Fault>
        ensures outcome { Prints self.old bytes.now self.new result }
        ensures calls { self.new.calls ≡ counted self.old.calls (is_err result) }
        ensures all { OnOk result (Appends (Some self.old.printed) (Some self.new.printed) bytes.now) }
        ensures front { OnErr result (AppendsFront (Some self.old.printed) (Some self.new.printed) bytes.now) }
        ensures cause { HasCause self.old.calls.faults self.new.calls.faults result }
    {
        if let Err(fault) = self.calls.count() {
            let (half, _) = bytes.split_at(bytes.len() / 2);
            let _ = self.printed.extend_from_slice(half);
            return Err(fault);
        }
        match self.printed.extend_from_slice(bytes) {
            Ok(()) => Ok(()),
            Err(_) => {
                self.calls.raise();
                Err(Fault)
            }
        }
    }
}
