ghost use Rattle.std.specs.Prelude.{◌≡◌, ◌≤◌, ◌<◌, ◌+◌, ◌++◌, ◌∷◌, ◌^◌, [], List, ℕ, Option, Some, None, true, false, length, IfOk, IfErr, OnOk, OnErr, MatchResult};
ghost use Rattle.lps_terms.specs.declared.prefer.Prefer.TheVariants.{Oldest};
ghost use Rattle.lps_meaning.specs.Reports.{block_text, last_line as last_line_of};
ghost use Rattle.lps_goaltrees.specs.Followed.{AreCallFree};
ghost use Rattle.lps_cycle.specs.Engine.{IsOfRun, block_with};
ghost use Rattle.lps_outside.specs.Bytes.{Stream, Appends, AppendsFront, Takes, TakesNothing};
ghost use Rattle.lps_outside.specs.Causes.{Rose};
ghost use Rattle.lps_run.specs.Stopping.{Counted, Reported, StopsAtLine, StopsFirst, Stopped, TakesWithin, KeepsLimit, kept_by_default};

use crate::batch::batch_fault;
use crate::stop::Stop;
use lps_cycle::Engine;
use lps_formed::read_events_are_ground;
use lps_limits::KEPT_BY_DEFAULT;
use lps_meaning::{Counts, report_law};
use lps_model::{Accepted, Batch, Cycle};
use lps_outside::{Desk, Source};
use lps_reader::{BatchBad, BatchReader};
use lps_report::{Block, print_last_line};
use lps_terms::Prefer;
use std::alloc::{AllocError, Global};

/// How many bytes a stream may have.
const MOST_BYTES: u64 = 68_719_476_736;

/// How many reads reach the end of such a stream or pass its limit.
const MOST_READS: u64 = 68_719_476_737;

/// How many cycles a run may have.
const MOST_CYCLES: u64 = 1_000_000;

/// What is kept between two reads of the stream: the run so far, and the reader of its lines.
#[derive(Drop)]
pub struct Running {
    pub engine: Engine,
    pub reader: BatchReader,
}

/// Prints bytes.
fn print<D: Desk>(desk: &mut D, bytes: &[u8]) -> Result<(), Stop>
    ensures all { OnOk result (Appends (D.printed desk.old) (D.printed desk.new) bytes.now) }
    ensures front { OnErr result (AppendsFront (D.printed desk.old) (D.printed desk.new) bytes.now) }
    ensures kind { IfErr result StopsAtLine }
    ensures cause { MatchResult result (λ _. D.print_faults desk.new ≡ D.print_faults desk.old)
        (λ stop. (stop ≡ Stop.PrintFault) × Rose (D.print_faults desk.old) (D.print_faults desk.new)) }
{
    match desk.print(bytes) {
        Ok(()) => Ok(()),
        Err(_) => Err(Stop::PrintFault),
    }
}

/// Reads the next piece of the stream.
fn read_piece<E: Source>(events: &mut E, buffer: &mut [u8]) -> Result<usize, Stop>
    ensures within { IfOk result (λ count. count ≤ length buffer.old) }
    ensures bytes { IfOk result (λ count. (before : Stream) → E.stream events.old ≡ Some before →
        Takes before count (length buffer.old) buffer.new (E.stream events.new)) }
    ensures none { OnErr result ((before : Stream) → E.stream events.old ≡ Some before → TakesNothing before (E.stream events.new)) }
    ensures cause { MatchResult result (λ _. E.faults events.new ≡ E.faults events.old)
        (λ stop. (stop ≡ Stop.EventFault) × Rose (E.faults events.old) (E.faults events.new)) }
{
    match events.read(buffer) {
        Ok(count) => Ok(count),
        Err(_) => Err(Stop::EventFault),
    }
}

/// The bytes of the block of the last cycle of a run.
fn block_of(
    alloc: Global,
    number: u64,
    cycle: &Cycle,
    engine: &Engine,
) -> Result<Vec<u8>, AllocError>
    ensures { IfOk result (λ bytes. bytes.items ≡ block_text number (block_with engine.now cycle.now)) }
{
    let block = Block {
        number,
        cycle,
        facts: engine.facts(),
        created: engine.created(),
        closed: engine.closed(),
    };
    let mut bytes = Vec::new(alloc);
    block.print(&mut bytes)?;
    Ok(bytes)
}

/// The bytes of the last line of a report with these counts.
fn last_line(alloc: Global, counts: Counts) -> Result<Vec<u8>, AllocError>
    ensures { IfOk result (λ bytes. bytes.items ≡ last_line_of counts) }
{
    let mut bytes = Vec::new(alloc);
    print_last_line(counts, &mut bytes)?;
    Ok(bytes)
}

impl Running {
    ghost use Rattle.lps_batches.specs.LinesAhead.{IsLine};
    ghost use Rattle.lps_cycle.specs.Engine.{Stands};
    ghost use Rattle.lps_model.specs.Run.{first_trace};
    ghost use Rattle.lps_run.specs.Judged.{WasRead, ended};
    ghost use Rattle.lps_run.specs.Running.{Due, Standing, Reading, Finished};

    /// The run of no cycles, and nothing of a stream.
    fn new(alloc: Global, text: Accepted) -> Result<Box<Running>, Stop>
        requires { AreCallFree text }
        ensures text { IfOk result (λ running. running.value.engine.text ≡ text) }
        ensures empty { IfOk result (λ running. running.value.reader ≡ record { left = []; lines = 0; bad = None }) }
        ensures oldest { IfOk result (λ running. running.value.engine.prefer ≡ Oldest) }
        ensures keeps { IfOk result (λ running. running.value.engine.keep ≡ kept_by_default) }
        ensures stands { IfOk result (λ running. Stands running.value.engine [] (first_trace running.value.engine.facts)) }
        ensures ended { IfErr result (StopsFirst text) }
    {
        let engine = Engine::start(alloc, text, Prefer::Oldest, KEPT_BY_DEFAULT)?;
        let running = Running {
            engine,
            reader: BatchReader::new(alloc),
        };
        Ok(Box::new(alloc, running)?)
    }

    /// Prints the block of cycle 0.
    fn begin<D: Desk>(&self, alloc: Global, desk: &mut D) -> Result<(), Stop>
        requires empty { self.now.reader ≡ record { left = []; lines = 0; bad = None } }
        requires oldest { self.now.engine.prefer ≡ Oldest }
        requires keeps { self.now.engine.keep ≡ kept_by_default }
        requires stands { Stands self.now.engine [] (first_trace self.now.engine.facts) }
        ensures told { (stream start : List ℕ) (source : Option Stream) → D.printed desk.old ≡ Some start →
            MatchResult result (λ _. Standing self.now stream (ended stream) start (D.printed desk.new))
            (λ stop. Stopped self.now.engine.text stream start (D.printed desk.new) source stop) }
        ensures kind { IfErr result StopsAtLine }
        ensures counted { Counted result 0 0 (D.print_faults desk.old) (D.print_faults desk.new) }
    {
        let block = block_of(alloc, 0, &Cycle::none(alloc), &self.engine)?;
        print(desk, block.as_slice())
    }

    /// Makes the cycle of a batch whose line was taken, if the batch is that of the next cycle.
    fn take_batch<D: Desk>(&mut self, alloc: Global, batch: Batch, desk: &mut D) -> Result<(), Stop>
        requires read { WasRead batch }
        requires run { IsOfRun self.old.engine }
        ensures text { self.new.engine.text ≡ self.old.engine.text }
        ensures run { IsOfRun self.new.engine }
        ensures reader { self.new.reader ≡ self.old.reader }
        ensures told { (stream rest start : List ℕ) (source : Option Stream) → Due self.old stream rest start (D.printed desk.old) batch →
            MatchResult result (λ _. Standing self.new stream rest start (D.printed desk.new))
            (λ stop. Stopped self.old.engine.text stream start (D.printed desk.new) source stop) }
        ensures kind { IfErr result StopsAtLine }
        ensures counted { Counted result 0 0 (D.print_faults desk.old) (D.print_faults desk.new) }
    {
        let number = self.engine.cycles() + 1;
        if let Some(kind) = batch_fault(self.engine.text(), number, &batch) {
            let line = self.reader.lines();
            return Err(Stop::Refused(BatchBad { line, kind }));
        }
        if self.engine.cycles() >= MOST_CYCLES {
            return Err(Stop::CycleLimit);
        }
        read_events_are_ground();
        report_law();
        let cycle = self.engine.cycle(alloc, batch.events)?;
        let block = block_of(alloc, number, &cycle, &self.engine)?;
        print(desk, block.as_slice())
    }

    /// Takes the next whole line that holds a batch, and says whether there was one.
    fn take_line<D: Desk>(&mut self, alloc: Global, desk: &mut D) -> Result<bool, Stop>
        requires room { self.old.reader.lines + length self.old.reader.left < 2 ^ 63 }
        requires run { IsOfRun self.old.engine }
        ensures text { self.new.engine.text ≡ self.old.engine.text }
        ensures run { IsOfRun self.new.engine }
        ensures room { self.new.reader.lines + length self.new.reader.left ≤ self.old.reader.lines + length self.old.reader.left }
        ensures shorter { IfOk result (λ found. found ≡ true → length self.new.reader.left < length self.old.reader.left) }
        ensures told { (stream rest start : List ℕ) (source : Option Stream) → Standing self.old stream rest start (D.printed desk.old) →
            MatchResult result (λ found. Standing self.new stream rest start (D.printed desk.new) × (found ≡ false → IsLine self.new.reader.left))
            (λ stop. Stopped self.old.engine.text stream start (D.printed desk.new) source stop) }
        ensures kind { IfErr result StopsAtLine }
        ensures counted { Counted result 0 0 (D.print_faults desk.old) (D.print_faults desk.new) }
    {
        match self.reader.next(alloc)? {
            None => Ok(false),
            Some(Err(bad)) => Err(Stop::Refused(bad)),
            Some(Ok(batch)) => {
                self.take_batch(alloc, batch, desk)?;
                Ok(true)
            }
        }
    }

    /// Takes a piece of the stream: its whole lines, and the line that was begun before it.
    fn take_piece<D: Desk>(&mut self, alloc: Global, piece: &[u8], desk: &mut D) -> Result<(), Stop>
        requires room { self.old.reader.lines + length self.old.reader.left + length piece.now < 2 ^ 63 }
        requires run { IsOfRun self.old.engine }
        ensures text { self.new.engine.text ≡ self.old.engine.text }
        ensures run { IsOfRun self.new.engine }
        ensures room { OnOk result (self.new.reader.lines + length self.new.reader.left ≤ self.old.reader.lines + length self.old.reader.left + length piece.now) }
        ensures told { (stream rest start : List ℕ) (source : Option Stream) → Standing self.old stream (piece.now ++ rest) start (D.printed desk.old) →
            MatchResult result (λ _. Standing self.new stream rest start (D.printed desk.new) × IsLine self.new.reader.left)
            (λ stop. Stopped self.old.engine.text stream start (D.printed desk.new) source stop) }
        ensures kind { IfErr result StopsAtLine }
        ensures counted { Counted result 0 0 (D.print_faults desk.old) (D.print_faults desk.new) }
    {
        self.reader.feed(piece)?;
        while self.take_line(alloc, desk)? {}
        Ok(())
    }

    /// Takes what is left at the end of the stream: a last line without a line feed.
    fn finish<D: Desk>(&mut self, alloc: Global, desk: &mut D) -> Result<(), Stop>
        requires room { self.old.reader.lines + length self.old.reader.left < 2 ^ 63 }
        requires run { IsOfRun self.old.engine }
        ensures text { self.new.engine.text ≡ self.old.engine.text }
        ensures run { IsOfRun self.new.engine }
        ensures told { (stream start : List ℕ) (source : Option Stream) → Standing self.old stream (10 ∷ []) start (D.printed desk.old) → IsLine self.old.reader.left →
            MatchResult result (λ _. Finished self.new stream start (D.printed desk.new))
            (λ stop. Stopped self.old.engine.text stream start (D.printed desk.new) source stop) }
        ensures kind { IfErr result StopsAtLine }
        ensures counted { Counted result 0 0 (D.print_faults desk.old) (D.print_faults desk.new) }
    {
        match self.reader.finish(alloc)? {
            None => Ok(()),
            Some(Err(bad)) => Err(Stop::Refused(bad)),
            Some(Ok(batch)) => self.take_batch(alloc, batch, desk),
        }
    }

    /// Reads the next piece and takes it. Answers how many bytes it has, which is 0 at the end.
    fn take_next<E: Source, D: Desk>(
        &mut self,
        alloc: Global,
        taken: u64,
        events: &mut E,
        desk: &mut D,
    ) -> Result<u64, Stop>
        requires taken { taken ≤ 2 ^ 36 }
        requires room { self.old.reader.lines + length self.old.reader.left ≤ taken }
        requires run { IsOfRun self.old.engine }
        ensures text { self.new.engine.text ≡ self.old.engine.text }
        ensures run { IsOfRun self.new.engine }
        ensures within { IfOk result (λ count. taken + count ≤ 2 ^ 36) }
        ensures room { IfOk result (λ count. self.new.reader.lines + length self.new.reader.left ≤ taken + count) }
        ensures bytes { (before : Stream) → E.stream events.old ≡ Some before → TakesWithin taken before result (E.stream events.new) }
        ensures told { (stream start : List ℕ) → Reading self.old stream start (D.printed desk.old) (E.stream events.old) →
            MatchResult result (λ _. Reading self.new stream start (D.printed desk.new) (E.stream events.new))
            (λ stop. Stopped self.old.engine.text stream start (D.printed desk.new) (E.stream events.new) stop) }
        ensures counted { Counted result (E.faults events.old) (E.faults events.new) (D.print_faults desk.old) (D.print_faults desk.new) }
    {
        let mut buffer = [0u8; 16384];
        let count = read_piece(events, &mut buffer)?;
        if count as u64 > MOST_BYTES - taken {
            return Err(Stop::StreamLimit);
        }
        let (piece, _) = buffer.split_at(count);
        self.take_piece(alloc, piece, desk)?;
        Ok(count as u64)
    }

    /// Takes the stream to its end.
    fn take_stream<E: Source, D: Desk>(
        &mut self,
        alloc: Global,
        events: &mut E,
        desk: &mut D,
    ) -> Result<(), Stop>
        requires empty { self.old.reader ≡ record { left = []; lines = 0; bad = None } }
        requires run { IsOfRun self.old.engine }
        ensures text { self.new.engine.text ≡ self.old.engine.text }
        ensures limit { (before : Stream) → E.stream events.old ≡ Some before → KeepsLimit before result (E.stream events.new) }
        ensures ended { OnOk result ((before : Stream) → E.stream events.old ≡ Some before → (after : Stream) × (E.stream events.new ≡ Some after) × (after.left ≡ [])) }
        ensures told { (before : Stream) (start : List ℕ) → E.stream events.old ≡ Some before → Standing self.old before.left (ended before.left) start (D.printed desk.old) →
            MatchResult result (λ _. Finished self.new before.left start (D.printed desk.new))
            (λ stop. Stopped self.old.engine.text before.left start (D.printed desk.new) (E.stream events.new) stop) }
        ensures counted { Counted result (E.faults events.old) (E.faults events.new) (D.print_faults desk.old) (D.print_faults desk.new) }
    {
        let mut taken: u64 = 0;
        for turn in 0..MOST_READS {
            let count = self.take_next(alloc, taken, events, desk)?;
            if count == 0 {
                return self.finish(alloc, desk);
            }
            taken += count;
        }
        Err(Stop::StreamLimit)
    }

    /// Prints the last line of the report, and gives the counts in it.
    fn end<D: Desk>(&self, alloc: Global, desk: &mut D) -> Result<Counts, Stop>
        ensures told { (stream start : List ℕ) (source : Option Stream) (last : Stream) → source ≡ Some last → last.left ≡ [] → Finished self.now stream start (D.printed desk.old) →
            MatchResult result (λ counts. Reported self.now.engine.text stream start (D.printed desk.new) source counts)
            (λ stop. Stopped self.now.engine.text stream start (D.printed desk.new) source stop) }
        ensures kind { IfErr result StopsAtLine }
        ensures counted { Counted result 0 0 (D.print_faults desk.old) (D.print_faults desk.new) }
    {
        let counts = self.engine.counts();
        let last = last_line(alloc, counts)?;
        print(desk, last.as_slice())?;
        Ok(counts)
    }

    /// Prints the report over a stream, each block as soon as its cycle is made, and gives the counts in its last line.
    fn report<E: Source, D: Desk>(
        &mut self,
        alloc: Global,
        events: &mut E,
        desk: &mut D,
    ) -> Result<Counts, Stop>
        requires empty { self.old.reader ≡ record { left = []; lines = 0; bad = None } }
        requires oldest { self.old.engine.prefer ≡ Oldest }
        requires keeps { self.old.engine.keep ≡ kept_by_default }
        requires stands { Stands self.old.engine [] (first_trace self.old.engine.facts) }
        ensures limit { (before : Stream) → E.stream events.old ≡ Some before → KeepsLimit before result (E.stream events.new) }
        ensures told { (before : Stream) (start : List ℕ) → E.stream events.old ≡ Some before → D.printed desk.old ≡ Some start →
            MatchResult result (λ counts. Reported self.old.engine.text before.left start (D.printed desk.new) (E.stream events.new) counts)
            (λ stop. Stopped self.old.engine.text before.left start (D.printed desk.new) (E.stream events.new) stop) }
        ensures counted { Counted result (E.faults events.old) (E.faults events.new) (D.print_faults desk.old) (D.print_faults desk.new) }
    {
        self.begin(alloc, desk)?;
        self.take_stream(alloc, events, desk)?;
        self.end(alloc, desk)
    }
}

/// Runs a text whose consequents call no macros over a stream of batches, and prints the report, each block as soon as its cycle is
/// made. Gives the counts in its last line.
pub fn run<E: Source, D: Desk>(
    alloc: Global,
    text: Accepted,
    events: &mut E,
    desk: &mut D,
) -> Result<Counts, Stop>
    requires { AreCallFree text }
    ensures limit { (before : Stream) → E.stream events.old ≡ Some before → KeepsLimit before result (E.stream events.new) }
    ensures told { (before : Stream) (start : List ℕ) → E.stream events.old ≡ Some before → D.printed desk.old ≡ Some start →
        MatchResult result (λ counts. Reported text before.left start (D.printed desk.new) (E.stream events.new) counts)
        (λ stop. Stopped text before.left start (D.printed desk.new) (E.stream events.new) stop) }
    ensures counted { Counted result (E.faults events.old) (E.faults events.new) (D.print_faults desk.old) (D.print_faults desk.new) }
{
    let mut running = Running::new(alloc, text)?;
    running.report(alloc, events, desk)
}
