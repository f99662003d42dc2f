//! What is made of the bytes of a stream that were not yet taken.
ghost use Rattle.std.specs.Prelude.{◌≡◌, ◌+◌, ◌≤◌, drop, length, slice_range, IfOk};
ghost use Rattle.lps_batches.specs.LookAhead.{ahead};
ghost use Rattle.lps_batches.specs.declared.front.Front.TheVariants as front;
ghost use Rattle.lps_batches.specs.Outcomes.{FitsIn, IsEndOutcome, IsOutcome, IsReadAs, IsWhole};

use crate::ahead::{Ahead, look_ahead};
use crate::front::Front;
use crate::line::read_line;
use crate::skipped::is_skipped;
use lps_model::Batch;
use lps_terms::BatchKind;
use std::alloc::{AllocError, Global};

/// So many lines are passed over, and then nothing, a batch, or a bad line follows. `bytes` are all that are taken.
#[derive(Drop)]
pub enum Outcome {
    /// These lines and bytes are passed over, and nothing else is taken.
    Passed {
        lines: u64,
        bytes: usize,
    },
    /// Behind these lines the line of this batch is taken.
    Taken {
        lines: u64,
        bytes: usize,
        batch: Batch,
    },
    /// Behind these lines a bad line stands.
    Refused {
        lines: u64,
        kind: BatchKind,
    },
}

/// What is made of the bytes while the stream may go on. The only error is that memory ran out.
pub fn next_outcome(alloc: Global, bytes: &[u8]) -> Result<Outcome, AllocError>
    ensures is { IfOk result (IsOutcome bytes.now) }
    ensures fits { IfOk result (FitsIn (length bytes.now)) }
{
    outcome_of(alloc, bytes, look_ahead(bytes))
}

/// What is made of the bytes where the stream has ended. The only error is that memory ran out.
pub fn end_outcome(alloc: Global, bytes: &[u8]) -> Result<Outcome, AllocError>
    ensures is { IfOk result (IsEndOutcome bytes.now) }
    ensures fits { IfOk result (FitsIn (length bytes.now)) }
{
    let found = look_ahead(bytes);
    match found.front {
        Front::Part => last_outcome(alloc, bytes, found),
        Front::TooLong => outcome_of(alloc, bytes, found),
        Front::Line(_) => outcome_of(alloc, bytes, found),
    }
}

fn outcome_of(alloc: Global, bytes: &[u8], found: Ahead) -> Result<Outcome, AllocError>
    requires { found ≡ ahead bytes.now }
    ensures is { IfOk result (IsOutcome bytes.now) }
    ensures whole { (found.front ≡ front.Part → ⊥) → IfOk result IsWhole }
    ensures fits { IfOk result (FitsIn (length bytes.now)) }
{
    match found.front {
        Front::Part => Ok(Outcome::Passed {
            lines: found.lines,
            bytes: found.bytes,
        }),
        Front::TooLong => Ok(Outcome::Refused {
            lines: found.lines,
            kind: BatchKind::LineTooLong,
        }),
        Front::Line(length) => whole_outcome(alloc, bytes, found.lines, found.bytes, length),
    }
}

/// What is made of the line of this length that stands at this place, behind so many lines that are passed over.
fn whole_outcome(
    alloc: Global,
    bytes: &[u8],
    lines: u64,
    at: usize,
    count: usize,
) -> Result<Outcome, AllocError>
    requires { at + count + 1 ≤ length bytes.now }
    ensures { IfOk result (IsReadAs (slice_range bytes.now at (at + count)) lines (at + count + 1)) }
{
    let line = &bytes[at..at + count];
    line_outcome(alloc, line, lines, at + count + 1)
}

/// What is made of the last line, which has no line feed.
fn last_outcome(alloc: Global, bytes: &[u8], found: Ahead) -> Result<Outcome, AllocError>
    requires found { found ≡ ahead bytes.now }
    requires part { found.front ≡ front.Part }
    requires within { found.bytes ≤ length bytes.now }
    ensures is { IfOk result (IsEndOutcome bytes.now) }
    ensures fits { IfOk result (FitsIn (length bytes.now)) }
{
    let line = rest_of(bytes, found.bytes);
    if is_skipped(line) {
        return Ok(Outcome::Passed {
            lines: found.lines,
            bytes: bytes.len(),
        });
    }
    line_outcome(alloc, line, found.lines, bytes.len())
}

/// The bytes from this place on.
pub fn rest_of(bytes: &[u8], at: usize) -> &[u8]
    requires { at ≤ length bytes.now }
    ensures { result.now ≡ drop at bytes.now }
{
    &bytes[at..]
}

/// What is made of a line that stands behind so many lines that are passed over, and ends so many bytes behind the first.
fn line_outcome(alloc: Global, line: &[u8], lines: u64, bytes: usize) -> Result<Outcome, AllocError>
    ensures { IfOk result (IsReadAs line.now lines bytes) }
{
    Ok(match read_line(alloc, line)? {
        Ok(batch) => Outcome::Taken {
            lines,
            bytes,
            batch,
        },
        Err(kind) => Outcome::Refused { lines, kind },
    })
}
