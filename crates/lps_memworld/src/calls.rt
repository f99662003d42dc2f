ghost use Rattle.std.specs.Prelude.{◌≡◌, ◌≤◌, is_err, Ok, Err};
ghost use Rattle.lps_outside.specs.Causes.{HasCause};
ghost use Rattle.lps_memworld.specs.Calls.{Calls, counted, fails_next, no_calls, raised};

use lps_outside::Fault;
use std::marker::Model;

/// Numbers the calls of an object from 1 on, and says which of them fail.
///
/// Both counts stop at the greatest `u64`: every later call has that number.
#[derive(Drop)]
pub struct CallCounter {
    fails: Vec<u64>,
    made: u64,
    faults: u64,
}

impl Model for CallCounter {
    ghost use Rattle.lps_memworld.specs.Calls.{Calls};

    ghost Value = { Calls };

    ghost view = { λ it. record { fails = it.fails.items; made = it.made; faults = it.faults } };
}

impl CallCounter {
    pub fn new(fails: Vec<u64>) -> CallCounter
        ensures { result ≡ no_calls fails.items }
    {
        CallCounter {
            fails,
            made: 0,
            faults: 0,
        }
    }

    /// Counts one more call, which fails where its number is listed.
    pub fn count(&mut self) -> Result<(), Fault>
        ensures fails { is_err result ≡ fails_next self.old }
        ensures calls { self.new ≡ counted self.old (is_err result) }
        ensures cause { HasCause self.old.faults self.new.faults result }
    {
        self.made = self.made.saturating_add(1);
        if self.fails.as_slice().contains(&self.made) {
            self.faults = self.faults.saturating_add(1);
            return Err(Fault);
        }
        Ok(())
    }

    /// Notes that the call that was counted last has failed after all.
    pub fn raise(&mut self)
        ensures calls { self.new ≡ raised self.old }
        ensures later { self.old.faults ≤ self.new.faults }
    {
        self.faults = self.faults.saturating_add(1);
    }
}
