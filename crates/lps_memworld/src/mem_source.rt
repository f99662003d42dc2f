ghost use Rattle.std.specs.Prelude.{◌≡◌, ◌≤◌, ℕ, Some, length, max, min, is_err, IfOk, OnErr};
ghost use Rattle.lps_outside.specs.Bytes.{Stream, Takes, TakesNothing};
ghost use Rattle.lps_outside.specs.Causes.{HasCause};
ghost use Rattle.lps_memworld.specs.Calls.{counted, fails_next, no_calls};
ghost use Rattle.lps_memworld.specs.Streams.{FailingStream, unread};

use crate::SureSource;
use crate::calls::CallCounter;
use lps_outside::{Fault, Source};
use std::marker::Model;

/// A stream that is read in pieces, with calls that fail.
#[derive(Drop)]
pub struct MemSource {
    source: SureSource,
    calls: CallCounter,
}

impl Model for MemSource {
    ghost use Rattle.lps_memworld.specs.Streams.{FailingStream};

    ghost Value = { FailingStream };

    ghost view = { λ it. record { stream = it.source.stream; piece = it.source.piece; calls = it.calls } };
}

impl MemSource {
    /// A stream of these bytes, of which a call takes at most `piece`, and the numbers of the calls that fail,
    /// counted from 1. A piece of 0 counts as 1.
    pub fn new(bytes: Vec<u8>, piece: usize, fails: Vec<u64>) -> MemSource
        ensures stream { result.stream ≡ unread bytes.items }
        ensures piece { result.piece ≡ max piece 1 }
        ensures calls { result.calls ≡ no_calls fails.items }
    {
        MemSource {
            source: SureSource::new(bytes, piece),
            calls: CallCounter::new(fails),
        }
    }
}

impl Source for MemSource {
    ghost stream = { λ it. Some it.stream };

    ghost faults = { λ it. it.calls.faults };

    /// Fails exactly at the calls that are listed; another takes as many bytes as there is room for, at most a piece.
    fn read(&mut self, into: &mut [u8]) -> Result<usize, Fault>
        ensures fails { is_err result ≡ fails_next self.old.calls }
        ensures calls { self.new.calls ≡ counted self.old.calls (is_err result) }
        ensures piece { self.new.piece ≡ self.old.piece }
        ensures count { IfOk result (λ count.
            count ≡ min self.old.piece (min (length into.old) (length self.old.stream.left))) }
        ensures bound { IfOk result (λ count. count ≤ length into.old) }
        ensures bytes { IfOk result (λ count. (before : Stream) → Some self.old.stream ≡ Some before →
            Takes before count (length into.old) into.new (Some self.new.stream)) }
        ensures none { OnErr result ((before : Stream) → Some self.old.stream ≡ Some before →
            TakesNothing before (Some self.new.stream)) }
        ensures cause { HasCause self.old.calls.faults self.new.calls.faults result }
    {
        if let Err(fault) = self.calls.count() {
            self.source.take_nothing();
            return Err(fault);
        }
        Ok(self.source.take(into))
    }
}
