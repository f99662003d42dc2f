ghost use Rattle.std.specs.Prelude.{List, ℕ, Option, OnOk, OnErr};
ghost use Rattle.lps_outside.specs.Bytes.{Appends, AppendsFront};
ghost use Rattle.lps_outside.specs.Causes.{HasCause};

use crate::Fault;

/// Where a report is printed.
pub trait Desk {
    /// The bytes that were printed, where the object tells them.
    ghost printed: { Self → Option (List ℕ) };

    /// How often a print failed.
    ghost print_faults: { Self → ℕ };

    /// Prints all of the bytes, after those that were printed before.
    ///
    /// After a fault a front of the bytes is out. What is out is never taken back.
    fn print(&mut self, bytes: &[u8]) -> Result<(), Fault>
        ensures all { OnOk result (Appends (printed self.old) (printed self.new) bytes.now) }
        ensures front { OnErr result (AppendsFront (printed self.old) (printed self.new) bytes.now) }
        ensures cause { HasCause (print_faults self.old) (print_faults self.new) result };
}
