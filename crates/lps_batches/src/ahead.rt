ghost use Rattle.std.specs.Prelude.{◌≡◌, ◌+◌, ◌<◌, ◌≤◌, ◌-◌, length, drop};
ghost use Rattle.std.specs.List.{take_while};
ghost use Rattle.lps_batches.specs.LookAhead.{ahead, is_no_feed, step_of, line_length, PassesIn, taken_by};

use crate::front::Front;
use crate::skipped::is_skipped;

/// The most bytes that a line has, its line feed left out.
pub const LONGEST_LINE: usize = 65536;

/// What stands ahead in bytes: so many whole lines to pass over, of so many bytes with their line feeds, and then this.
#[derive(Clone, Copy, Debug, PartialEq, Eq)]
pub struct Ahead {
    pub lines: u64,
    pub bytes: usize,
    pub front: Front,
}

/// A whole line to pass over, of so many bytes with its line feed, or what is not passed over.
#[derive(Clone, Copy, Debug)]
pub enum Step {
    Pass(usize),
    Stop(Front),
}

/// What stands ahead. A line there is none that holds no batch.
pub fn look_ahead(bytes: &[u8]) -> Ahead
    ensures same { result ≡ ahead bytes.now }
    ensures within { result.bytes + taken_by result.front ≤ length bytes.now }
{
    let mut at = 0usize;
    let mut lines = 0u64;
    while at < bytes.len() {
        match step_at(bytes, at) {
            Step::Pass(length) => {
                at += length;
                lines += 1;
            }
            Step::Stop(front) => {
                return Ahead {
                    lines,
                    bytes: at,
                    front,
                };
            }
        }
    }
    Ahead {
        lines,
        bytes: at,
        front: Front::Part,
    }
}

/// What stands at a place. A line to pass over lies within the bytes.
fn step_at(bytes: &[u8], at: usize) -> Step
    requires { at < length bytes.now }
    ensures same { result ≡ step_of (drop at bytes.now) }
    ensures fits { PassesIn (length bytes.now - at) result }
{
    let step = step_of(&bytes[at..]);
    step
}

fn step_of(bytes: &[u8]) -> Step
    ensures { result ≡ step_of bytes.now }
{
    let line = line_at_front(bytes);
    if line.len() > LONGEST_LINE {
        Step::Stop(Front::TooLong)
    } else if line.len() == bytes.len() {
        Step::Stop(Front::Part)
    } else if is_skipped(line) {
        Step::Pass(line.len() + 1)
    } else {
        Step::Stop(Front::Line(line.len()))
    }
}

/// The bytes before the next line feed.
#[tactic(auto, using(crate::proofs::FirstLine::take_run, crate::proofs::FirstLine::run_within))]
fn line_at_front(bytes: &[u8]) -> &[u8]
    ensures { result.now ≡ take_while is_no_feed bytes.now }
{
    let length = line_length(bytes);
    &bytes[..length]
}

fn line_length(bytes: &[u8]) -> usize
    ensures { result ≡ line_length bytes.now }
{
    bytes.iter().take_while(|byte| **byte != b'\n').count()
}
