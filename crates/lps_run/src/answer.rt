ghost use Rattle.std.specs.Prelude.{◌≡◌};
ghost use Rattle.lps_run.specs.Answers.{answer_to, answer_with as answer_with_of, code_of};

use crate::stop::Stop;
use lps_limits::Full;
use lps_meaning::Counts;
use lps_reader::BatchBad;
use lps_terms::{BatchKind, TextRefused};
use std::fmt;

/// What is wrong with the words of a call.
#[derive(Clone, Copy, Debug)]
pub enum UsageKind {
    /// They are no command.
    Words,
}

/// How a call of `lps` ended.
#[derive(Debug, Drop)]
pub enum Answer {
    /// The stream was read to its end, and the whole report is printed; each goal is solved.
    Done,
    /// The stream was read to its end, and the whole report is printed; so many goals are not solved.
    Unfinished(Counts),
    /// The canonical text of the text is printed.
    Checked,
    Usage(UsageKind),
    /// The text is refused, and nothing is printed.
    TextRefused(TextRefused),
    /// The first faulty line of the stream; the blocks of the cycles before it are printed.
    BatchRefused { line: u64, kind: BatchKind },
    /// The run has as many cycles as a run may have, and one more batch came.
    CycleLimit,
    /// The state, what is kept from cycle to cycle, or the log would have more symbols than it may have; the blocks of the cycles before
    /// the one that was tried are printed.
    Full(Full),
    /// More bytes were taken than a stream may have.
    StreamLimit,
    TextFault,
    EventFault,
    PrintFault,
    NoMemory,
}

impl Answer {
    /// The exit code of the program.
    pub fn code(&self) -> u8
        ensures { result ≡ code_of self.now }
    {
        match self {
            Answer::Done => 0,
            Answer::Unfinished(_) => 1,
            Answer::Checked => 0,
            Answer::Usage(_) => 2,
            Answer::TextRefused(_) => 3,
            Answer::BatchRefused { line: _, kind: _ } => 4,
            Answer::CycleLimit => 6,
            Answer::Full(_) => 6,
            Answer::StreamLimit => 6,
            Answer::TextFault => 7,
            Answer::EventFault => 7,
            Answer::PrintFault => 7,
            Answer::NoMemory => 8,
        }
    }
}

/// An answer in words, which the program writes on standard error for codes from 2 on.
impl fmt::Display for Answer {
    fn fmt<W: fmt::Write>(&self, f: &mut fmt::Formatter<W>) -> fmt::Result {
        match self {
            Answer::Done => write!(f, "done"),
            Answer::Unfinished(
                Counts {
                    pending,
                    failed,
                    cut,
                },
            ) => write!(f, "open {pending} failed {failed} cut {cut}"),
            Answer::Checked => write!(f, "checked"),
            Answer::Usage(UsageKind::Words) => write!(f, "usage"),
            Answer::TextRefused(reason) => write!(f, "{reason}"),
            Answer::BatchRefused { line, kind } => write!(f, "batch line {line}: {kind}"),
            Answer::CycleLimit => write!(f, "cycle limit"),
            Answer::Full(full) => write!(f, "{full}"),
            Answer::StreamLimit => write!(f, "stream limit"),
            Answer::TextFault => write!(f, "text fault"),
            Answer::EventFault => write!(f, "event fault"),
            Answer::PrintFault => write!(f, "print fault"),
            Answer::NoMemory => write!(f, "no memory"),
        }
    }
}

/// The answer for a whole report with these counts.
fn answer_with(counts: Counts) -> Answer
    ensures { result ≡ answer_with_of counts }
{
    if counts.pending == 0 && counts.failed == 0 && counts.cut == 0 {
        Answer::Done
    } else {
        Answer::Unfinished(counts)
    }
}

/// The answer for the end of a run.
pub fn answer_of(run: Result<Counts, Stop>) -> Answer
    ensures { result ≡ answer_to run }
{
    match run {
        Ok(counts) => answer_with(counts),
        Err(Stop::NoMemory) => Answer::NoMemory,
        Err(Stop::Refused(BatchBad { line, kind })) => Answer::BatchRefused { line, kind },
        Err(Stop::CycleLimit) => Answer::CycleLimit,
        Err(Stop::Full(full)) => Answer::Full(full),
        Err(Stop::StreamLimit) => Answer::StreamLimit,
        Err(Stop::EventFault) => Answer::EventFault,
        Err(Stop::PrintFault) => Answer::PrintFault,
    }
}
