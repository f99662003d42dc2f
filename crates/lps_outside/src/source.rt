ghost use Rattle.std.specs.Prelude.{◌≡◌, ◌≤◌, ℕ, Option, Some, length, IfOk, OnErr};
ghost use Rattle.lps_outside.specs.Bytes.{Stream, Takes, TakesNothing};
ghost use Rattle.lps_outside.specs.Causes.{HasCause};

use crate::Fault;

/// A stream of bytes that is read once, from its front.
pub trait Source {
    ghost use Rattle.lps_outside.specs.Bytes.{Stream};

    /// The bytes left and how many the last call took, where the object tells them.
    ghost stream: { Self → Option Stream };

    /// How often a call failed.
    ghost faults: { Self → ℕ };

    /// Takes the next bytes into the front of `into`, and answers how many.
    ///
    /// It may take fewer than there is room for. Where there is room, 0 is the end of the stream. A call
    /// that fails takes nothing.
    fn read(&mut self, into: &mut [u8]) -> Result<usize, Fault>
        ensures bound { IfOk result (λ count. count ≤ length into.old) }
        ensures bytes { IfOk result (λ count. (before : Stream) → stream self.old ≡ Some before →
            Takes before count (length into.old) into.new (stream self.new)) }
        ensures none { OnErr result ((before : Stream) → stream self.old ≡ Some before →
            TakesNothing before (stream self.new)) }
        ensures cause { HasCause (faults self.old) (faults self.new) result };
}
