ghost use Rattle.std.specs.Prelude.{◌≡◌, ◌≤◌, ℕ, Some, drop, length, max, min, IsOk, IfOk, OnErr};
ghost use Rattle.lps_outside.specs.Bytes.{Stream, Takes, TakesNothing};
ghost use Rattle.lps_outside.specs.Causes.{HasCause};
ghost use Rattle.lps_memworld.specs.Streams.{PiecewiseStream, unread};

use crate::copy::copy_front;
use lps_outside::{Fault, Source};
use std::marker::Model;

/// A stream that is read in pieces, each read of which succeeds.
#[derive(Drop)]
pub struct SureSource {
    bytes: Vec<u8>,
    at: usize,
    took: usize,
    piece: usize,
}

impl Model for SureSource {
    ghost use Rattle.std.specs.Prelude.{◌≤◌, drop, length};
    ghost use Rattle.lps_memworld.specs.Streams.{PiecewiseStream};

    ghost Value = { PiecewiseStream };

    ghost view = { λ it. record {
      stream = record { left = drop it.at it.bytes.items; took = it.took };
      piece = it.piece;
    } };

    ghost invariant = { λ it. (it.at ≤ length it.bytes.items) × (1 ≤ it.piece) };
}

impl SureSource {
    /// A stream of these bytes, of which a call takes at most `piece`; a piece of 0 counts as 1.
    pub fn new(bytes: Vec<u8>, piece: usize) -> SureSource
        ensures stream { result.stream ≡ unread bytes.items }
        ensures piece { result.piece ≡ max piece 1 }
    {
        SureSource {
            bytes,
            at: 0,
            took: 0,
            piece: piece.max(1),
        }
    }

    /// Takes the next bytes, as many as there is room for, and at most a piece.
    pub(crate) fn take(&mut self, into: &mut [u8]) -> usize
        ensures count { result ≡ min self.old.piece (min (length into.old) (length self.old.stream.left)) }
        ensures bytes { Takes self.old.stream result (length into.old) into.new (Some self.new.stream) }
        ensures piece { self.new.piece ≡ self.old.piece }
    {
        let (_, rest) = self.bytes.as_slice().split_at(self.at);
        let count = copy_front(rest, self.piece, into);
        self.at += count;
        self.took = count;
        count
    }

    /// Takes nothing.
    pub(crate) fn take_nothing(&mut self)
        ensures bytes { TakesNothing self.old.stream (Some self.new.stream) }
        ensures piece { self.new.piece ≡ self.old.piece }
    {
        self.took = 0;
    }
}

impl Source for SureSource {
    ghost stream = { λ it. Some it.stream };

    ghost faults = { λ it. 0 };

    /// Takes as many bytes as there is room for, and at most a piece. It never fails.
    fn read(&mut self, into: &mut [u8]) -> Result<usize, Fault>
        ensures sure { IsOk result }
        ensures count { IfOk result (λ count.
            count ≡ min self.old.piece (min (length into.old) (length self.old.stream.left))) }
        ensures piece { self.new.piece ≡ self.old.piece }
        ensures bound { IfOk result (λ count. count ≤ length into.old) }
        ensures bytes { IfOk result (λ count. (before : Stream) → Some self.old.stream ≡ Some before →
            Takes before count (length into.old) into.new (Some self.new.stream)) }
        ensures none { OnErr result ((before : Stream) → Some self.old.stream ≡ Some before →
            TakesNothing before (Some self.new.stream)) }
        ensures cause { HasCause 0 0 result }
    {
        Ok(self.take(into))
    }
}
