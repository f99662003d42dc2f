ghost use Rattle.std.specs.Prelude.{◌≡◌, ◌≤◌, List, ℕ, Option, Some, length, IfOk};
ghost use Rattle.lps_outside.specs.Bytes.{CopiesAt};
ghost use Rattle.lps_outside.specs.Causes.{HasCause};

use crate::Fault;

/// Texts by name.
pub trait Texts {
    /// The bytes of the text of a name, where the object tells them.
    ghost text: { Self → List ℕ → Option (List ℕ) };

    /// How often a call for a name failed. A call tells only the count of its own name, so a caller that has to know
    /// the count of one name reads no other.
    ghost faults: { Self → List ℕ → ℕ };

    /// Copies bytes of the named text from place `at` on into the front of `into`, and answers how many.
    ///
    /// It may copy fewer than there is room for. Where there is room, 0 is answered only at or past the
    /// end of the text. It fails for a name that cannot be read.
    fn read(&mut self, name: &str, at: u64, into: &mut [u8]) -> Result<usize, Fault>
        ensures bound { IfOk result (λ count. count ≤ length into.old) }
        ensures bytes { IfOk result (λ count. (all : List ℕ) → text self.old name.now ≡ Some all →
            CopiesAt all at count (length into.old) into.new) }
        ensures same { (other : List ℕ) → text self.new other ≡ text self.old other }
        ensures cause { HasCause (faults self.old name.now) (faults self.new name.now) result };
}
