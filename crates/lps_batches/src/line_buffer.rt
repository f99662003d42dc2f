ghost use Rattle.std.specs.Prelude.{◌≡◌, ◌≤◌, ◌++◌, [], drop, length, OnOk, OnErr};

use std::alloc::{AllocError, Global};
use std::marker::Model;

/// The bytes of a stream that were fed and not yet taken. Contracts see it as these bytes.
#[derive(Drop)]
pub struct LineBuffer {
    bytes: Vec<u8>,
    taken: usize,
}

impl Model for LineBuffer {
    ghost use Rattle.std.specs.Prelude.{List, ℕ, drop, length, ◌≤◌};

    ghost Value = { List ℕ };

    ghost view = { λ buffer. drop buffer.taken buffer.bytes.items };

    ghost invariant = { λ buffer. buffer.taken ≤ length buffer.bytes.items };
}

impl LineBuffer {
    /// No bytes.
    pub fn new(alloc: Global) -> LineBuffer
        ensures { result ≡ [] }
    {
        LineBuffer {
            bytes: Vec::new(alloc),
            taken: 0,
        }
    }

    /// The bytes that were not yet taken.
    pub fn bytes(&self) -> &[u8]
        ensures { result.now ≡ self.now }
    {
        &self.bytes[self.taken..]
    }

    /// Appends a piece of the stream.
    pub fn feed(&mut self, piece: &[u8]) -> Result<(), AllocError>
        ensures ok { OnOk result (self.new ≡ self.old ++ piece.now) }
        ensures err { OnErr result (self.new ≡ self.old) }
    {
        self.forget_taken();
        self.bytes.extend_from_slice(piece)
    }

    /// Gives up the bytes that were taken once they are the greater part, so that this costs no more than taking them.
    fn forget_taken(&mut self)
        ensures { self.new ≡ self.old }
    {
        let len = self.bytes.len();
        if self.taken > len / 2 {
            self.bytes.rotate_left(self.taken);
            self.bytes.truncate(len - self.taken);
            self.taken = 0;
        }
    }

    /// Takes the first bytes.
    pub fn take(&mut self, count: usize)
        requires { count ≤ length self.old }
        ensures { self.new ≡ drop count self.old }
    {
        self.taken += count;
    }
}
