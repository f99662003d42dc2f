//! What holds of the definitions that the contracts cite.
ghost use Rattle.std.specs.Prelude.{◌≡◌, ◌≤◌, ◌↔◌, ◌++◌, ℕ, List, Option, Result, Some, None, Ok, Err, length};
ghost use Rattle.lps_terms.specs.declared.batch_kind.BatchKind.{BatchKind};
ghost use Rattle.lps_model.specs.declared.batch.Batch.{Batch};
ghost use Rattle.lps_batches.specs.declared.ahead.Ahead.{Ahead};
ghost use Rattle.lps_batches.specs.declared.batch_bad.BatchBad.{BatchBad};
ghost use Rattle.lps_batches.specs.Lines.{IsLineRead, SpellsBatch};
ghost use Rattle.lps_batches.specs.LinesAhead.{KeepsLines, StandsAhead};
ghost use Rattle.lps_batches.specs.LookAhead.{ahead};
ghost use Rattle.lps_batches.specs.Readings.{AreRead, Ended, History};
ghost use Rattle.lps_batches.specs.Stream.{Finish, Next, Reader};

/// Line by line, the rules for what stands ahead allow exactly one answer for any bytes, and it is that of the definition.
pub fn lines_are_those_of_the_rules()
    ensures { (bytes : List ℕ) (found : Ahead) → StandsAhead bytes found ↔ (ahead bytes ≡ found) }
{}

/// However a stream is cut, the same lines stand ahead. A whole line, or one that is too long, stays as more bytes come.
/// Where the bytes end in the beginning of a line, that beginning is read again with the bytes that come.
pub fn more_bytes_change_no_line()
    ensures { (bytes more : List ℕ) → KeepsLines bytes more }
{}

/// A line is read in one way only.
pub fn lines_are_read_one_way()
    ensures { (line : List ℕ) (a b : Result Batch BatchKind) → IsLineRead line a → IsLineRead line b → a ≡ b }
{}

/// A line that is a batch has at most 1,000 events.
pub fn batches_have_few_events()
    ensures { (line : List ℕ) (batch : Batch) → SpellsBatch line batch → length batch.events ≤ 1000 }
{}

/// A stream holds one list of batches and one first bad line, or none.
pub fn streams_are_read_one_way()
    ensures batches { (before : ℕ) (stream : List ℕ) (a b : List Batch) (c d : Option BatchBad) → AreRead before stream a c → AreRead before stream b d → a ≡ b }
    ensures bad { (before : ℕ) (stream : List ℕ) (a b : List Batch) (c d : Option BatchBad) → AreRead before stream a c → AreRead before stream b d → c ≡ d }
{}

/// Whatever calls led to it, once the reader has nothing left or a bad line, the batches that it gave and the bad line are
/// what the whole stream holds. So they do not depend on how the stream was cut, nor on when the reader was asked.
pub fn cutting_changes_nothing()
    // At a bad line nothing that may still be fed matters.
    ensures early { (stream more : List ℕ) (batches : List Batch) (old new : Reader) (bad : BatchBad) → History stream batches old → Next old (Some (Err bad)) new → AreRead 0 (stream ++ more) batches (Some bad) }
    ensures bad { (stream : List ℕ) (batches : List Batch) (old new : Reader) (bad : BatchBad) → Ended stream batches old → Finish old (Some (Err bad)) new → AreRead 0 stream batches (Some bad) }
    ensures end { (stream : List ℕ) (batches : List Batch) (old new : Reader) → Ended stream batches old → Finish old None new → AreRead 0 stream batches None }
{}
