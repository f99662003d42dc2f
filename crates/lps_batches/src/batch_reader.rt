ghost use Rattle.std.specs.Prelude.{◌≡◌, ◌+◌, ◌<◌, ◌≤◌, ◌^◌, ◌++◌, [], drop, length, take, true, IfOk, OnOk, OnErr, None};
ghost use Rattle.std.specs.List.{list_all};
ghost use Rattle.lps_batches.specs.LookAhead.{is_no_feed};
ghost use Rattle.lps_batches.specs.LinesAhead.{IsLine};
ghost use Rattle.lps_batches.specs.Outcomes.{FitsIn, Settles};
ghost use Rattle.lps_batches.specs.Stream.{Finish, Next};

use crate::ahead::LONGEST_LINE;
use crate::batch_bad::BatchBad;
use crate::line_buffer::LineBuffer;
use crate::outcome::{Outcome, end_outcome, next_outcome, rest_of};
use lps_model::Batch;
use std::alloc::{AllocError, Global};
use std::marker::Model;

/// Reads the batches of a stream that comes in any pieces. Contracts see the bytes that were fed and not yet taken, how
/// many lines were taken, and the bad line once it was met.
#[derive(Drop)]
pub struct BatchReader {
    buffer: LineBuffer,
    lines: u64,
    bad: Option<BatchBad>,
    /// So many bytes at the front of the buffer are known to have no line feed.
    seen: usize,
}

impl Model for BatchReader {
    ghost use Rattle.std.specs.Prelude.{◌≡◌, ◌≤◌, length, take, true};
    ghost use Rattle.std.specs.List.{list_all};
    ghost use Rattle.lps_batches.specs.LookAhead.{is_no_feed};
    ghost use Rattle.lps_batches.specs.Stream.{Reader};

    ghost Value = { Reader };

    ghost view = { λ reader. record { left = reader.buffer; lines = reader.lines; bad = reader.bad } };

    ghost invariant = { λ reader. (reader.seen ≤ length reader.buffer) × (list_all is_no_feed (take reader.seen reader.buffer) ≡ true) };
}

impl BatchReader {
    /// A reader that was fed nothing.
    pub fn new(alloc: Global) -> BatchReader
        ensures { result ≡ record { left = []; lines = 0; bad = None } }
    {
        BatchReader {
            buffer: LineBuffer::new(alloc),
            lines: 0,
            bad: None,
            seen: 0,
        }
    }

    /// How many lines were taken, with those that are passed over.
    pub fn lines(&self) -> u64
        ensures { result ≡ self.now.lines }
    {
        self.lines
    }

    /// Appends a piece of the stream. An `Err` changes nothing, and comes only where memory ran out.
    pub fn feed(&mut self, piece: &[u8]) -> Result<(), AllocError>
        ensures ok { OnOk result (self.new ≡ record { left = self.old.left ++ piece.now; lines = self.old.lines; bad = self.old.bad }) }
        ensures err { OnErr result (self.new ≡ self.old) }
    {
        self.buffer.feed(piece)
    }

    /// The batch of the next whole line that is not passed over, and then the bad line, again at each later call. `None` comes
    /// where no whole line is left: feed the next piece, or call `finish`. A line is whole once its line feed or its byte
    /// 65,537 was fed. An `Err` changes nothing, and comes only where memory ran out.
    pub fn next(&mut self, alloc: Global) -> Result<Option<Result<Batch, BatchBad>>, AllocError>
        requires { self.old.lines + length self.old.left < 2 ^ 63 }
        ensures answer { IfOk result (λ answer. Next self.old answer self.new) }
        ensures room { self.new.lines + length self.new.left ≤ self.old.lines + length self.old.left }
        ensures err { OnErr result (self.new ≡ self.old) }
    {
        if let Some(bad) = self.bad {
            return Ok(Some(Err(bad)));
        }
        if self.is_part() {
            return Ok(None);
        }
        let outcome = next_outcome(alloc, self.buffer.bytes())?;
        Ok(self.settle(outcome))
    }

    /// The same where the stream has ended: a rest without a line feed is its last line. `None` comes where nothing is left.
    pub fn finish(&mut self, alloc: Global) -> Result<Option<Result<Batch, BatchBad>>, AllocError>
        requires { self.old.lines + length self.old.left < 2 ^ 63 }
        ensures answer { IfOk result (λ answer. Finish self.old answer self.new) }
        ensures room { self.new.lines + length self.new.left ≤ self.old.lines + length self.old.left }
        ensures err { OnErr result (self.new ≡ self.old) }
    {
        if let Some(bad) = self.bad {
            return Ok(Some(Err(bad)));
        }
        let outcome = end_outcome(alloc, self.buffer.bytes())?;
        Ok(self.settle(outcome))
    }

    /// Whether the buffer holds the beginning of a line alone. Bytes that were seen are not looked at again.
    fn is_part(&mut self) -> bool
        ensures same { self.new ≡ self.old }
        ensures part { result ≡ true → IsLine self.old.left }
    {
        let bytes = self.buffer.bytes();
        if !is_part(bytes, self.seen) {
            return false;
        }
        self.seen = bytes.len();
        true
    }

    /// Takes what the outcome says, and answers it.
    fn settle(&mut self, outcome: Outcome) -> Option<Result<Batch, BatchBad>>
        requires fine { self.old.bad ≡ None }
        requires fits { FitsIn (length self.old.left) outcome }
        requires room { self.old.lines + length self.old.left < 2 ^ 63 }
        ensures { Settles self.old outcome result self.new }
    {
        match outcome {
            Outcome::Passed { lines, bytes } => {
                self.take(lines, bytes);
                None
            }
            Outcome::Taken {
                lines,
                bytes,
                batch,
            } => {
                self.take(lines + 1, bytes);
                Some(Ok(batch))
            }
            Outcome::Refused { lines, kind } => {
                let line = self.lines + lines + 1;
                let bad = BatchBad { line, kind };
                self.bad = Some(bad);
                Some(Err(bad))
            }
        }
    }

    fn take(&mut self, lines: u64, bytes: usize)
        requires bytes { bytes ≤ length self.old.left }
        requires lines { self.old.lines + lines < 2 ^ 64 }
        ensures { self.new ≡ record { left = drop bytes self.old.left; lines = self.old.lines + lines; bad = self.old.bad } }
    {
        self.buffer.take(bytes);
        self.lines += lines;
        self.seen = 0;
    }
}

/// Whether these are the beginning of a line, of which so many bytes were seen to have no line feed.
fn is_part(bytes: &[u8], seen: usize) -> bool
    requires within { seen ≤ length bytes.now }
    requires seen { list_all is_no_feed (take seen bytes.now) ≡ true }
    ensures { result ≡ true → IsLine bytes.now }
{
    bytes.len() <= LONGEST_LINE && has_no_feed(rest_of(bytes, seen))
}

fn has_no_feed(bytes: &[u8]) -> bool
    ensures { result ≡ list_all is_no_feed bytes.now }
{
    bytes.iter().copied().all(|byte| byte != b'\n')
}
