ghost use Rattle.std.specs.Prelude.{◌≡◌, ◌↔◌, ◌<◌, ◌+◌, ◌^◌, ℕ, IsTrue, List, Some, None, length, MatchResult, IfErr, IfOk};
ghost use Rattle.lps_model.specs.Formed.{is_formed};
ghost use Rattle.lps_outside.specs.Bytes.{Stream};
ghost use Rattle.lps_reader.specs.Texts.{IsReadOf};
ghost use Rattle.lps_run.specs.declared.words.Command.TheVariants as asked;
ghost use Rattle.lps_run.specs.Answers.{Answered, AnsweredCheck, Caused, EndsBeforeRun, IsAcceptedText, IsNoUsage, IsSilent, RefusedAs};
ghost use Rattle.lps_run.specs.Words.{NamesNoOther, command_of as command_of_words, words_of};

use crate::answer::{Answer, UsageKind, answer_of};
use crate::built::not_built;
use crate::loading::{LoadError, load};
use crate::stream::run;
use crate::words::{Command, command_of};
use lps_accept::accept;
use lps_formed::read_texts_are_formed;
use lps_model::{Accepted, JudgeError};
use lps_outside::{Desk, Source, Texts};
use lps_reader::{ReadError, print_text, read_text};
use lps_terms::{ReadRefused, Text, TextRefused};
use std::alloc::Global;

/// Reads bytes as a text, which is then well-formed.
fn formed_text(alloc: Global, bytes: &[u8]) -> Result<Text, ReadError>
    ensures read { IsReadOf bytes.now result }
    ensures formed { IfOk result (λ text. IsTrue (is_formed text)) }
{
    read_texts_are_formed();
    read_text(alloc, bytes)
}

/// Reads bytes as a text, and judges whether it is accepted.
fn accepted_text(alloc: Global, bytes: &[u8]) -> Result<Accepted, Answer>
    ensures told { MatchResult result (IsAcceptedText bytes.now) (RefusedAs bytes.now) }
    ensures kind { IfErr result EndsBeforeRun }
    ensures caused { (faults : ℕ) → IfErr result (λ answer. Caused answer faults faults 0 0 0 0) }
{
    match formed_text(alloc, bytes) {
        Ok(text) => match accept(alloc, text) {
            Ok(accepted) => Ok(accepted),
            Err(JudgeError::NoMemory) => Err(Answer::NoMemory),
            Err(JudgeError::Refused(refused)) => Err(Answer::TextRefused(TextRefused::NotAccepted(
                refused,
            ))),
        },
        Err(ReadError::NoMemory) => Err(Answer::NoMemory),
        Err(ReadError::Refused(refusal)) => Err(Answer::TextRefused(TextRefused::Read(refusal))),
    }
}

/// Reads the text of a name, and judges whether it is accepted.
fn text_of<T: Texts>(alloc: Global, texts: &mut T, name: &str) -> Result<Accepted, Answer>
    ensures told { (all : List ℕ) → T.text texts.old name.now ≡ Some all →
        MatchResult result (IsAcceptedText all) (RefusedAs all) }
    ensures kind { IfErr result EndsBeforeRun }
    ensures counted { MatchResult result (λ _. T.faults texts.new name.now ≡ T.faults texts.old name.now)
        (λ answer. Caused answer (T.faults texts.old name.now) (T.faults texts.new name.now) 0 0 0 0) }
{
    match load(alloc, texts, name) {
        Ok(bytes) => accepted_text(alloc, bytes.as_slice()),
        Err(LoadError::NoMemory) => Err(Answer::NoMemory),
        Err(LoadError::TooLong) => {
            let reason = TextRefused::Read(ReadRefused::TextTooLong);
            Err(Answer::TextRefused(reason))
        }
        Err(LoadError::Fault) => Err(Answer::TextFault),
    }
}

/// Runs an accepted text, if it is one that is run.
fn run_text<E: Source, D: Desk>(
    alloc: Global,
    text: Accepted,
    events: &mut E,
    desk: &mut D,
) -> Answer
    ensures kind { IsNoUsage result }
    ensures silent { IsSilent result → D.printed desk.new ≡ D.printed desk.old }
    ensures limit { (before after : Stream) → E.stream events.old ≡ Some before → E.stream events.new ≡ Some after →
        (result ≡ Answer.StreamLimit) ↔ (2 ^ 36 + length after.left < length before.left) }
    ensures told { (all : List ℕ) (before : Stream) (start : List ℕ) → IsAcceptedText all text →
        E.stream events.old ≡ Some before → D.printed desk.old ≡ Some start →
        Answered all before.left start (D.printed desk.new) (E.stream events.new) result }
    ensures caused { (faults : ℕ) → Caused result faults faults (E.faults events.old) (E.faults events.new) (D.print_faults desk.old) (D.print_faults desk.new) }
{
    match not_built(&text) {
        Some(line) => Answer::TextRefused(TextRefused::NotBuilt { line }),
        None => answer_of(run(alloc, text, events, desk)),
    }
}

/// Prints the canonical text of an accepted text.
fn check_text<D: Desk>(alloc: Global, text: &Accepted, desk: &mut D) -> Answer
    ensures kind { IsNoUsage result }
    ensures silent { IsSilent result → D.printed desk.new ≡ D.printed desk.old }
    ensures told { (all start : List ℕ) → IsAcceptedText all text.now → D.printed desk.old ≡ Some start → AnsweredCheck all start (D.printed desk.new) result }
    ensures caused { (faults reads : ℕ) → Caused result faults faults reads reads (D.print_faults desk.old) (D.print_faults desk.new) }
    ensures limit { result ≡ Answer.StreamLimit → ⊥ }
{
    let Ok(bytes) = print_text(alloc, text.text()) else {
        return Answer::NoMemory;
    };
    match desk.print(bytes.as_slice()) {
        Ok(()) => Answer::Checked,
        Err(_) => Answer::PrintFault,
    }
}

/// Reads the text of a name, and runs or prints it.
fn answer_command<T: Texts, E: Source, D: Desk>(
    alloc: Global,
    command: Command,
    name: &str,
    texts: &mut T,
    events: &mut E,
    desk: &mut D,
) -> Answer
    ensures kind { IsNoUsage result }
    ensures silent { IsSilent result → D.printed desk.new ≡ D.printed desk.old }
    ensures limit { (before after : Stream) → E.stream events.old ≡ Some before → E.stream events.new ≡ Some after →
        (result ≡ Answer.StreamLimit) ↔ (2 ^ 36 + length after.left < length before.left) }
    ensures told { (all : List ℕ) (before : Stream) (start : List ℕ) → command ≡ asked.Run → T.text texts.old name.now ≡ Some all →
        E.stream events.old ≡ Some before → D.printed desk.old ≡ Some start →
        Answered all before.left start (D.printed desk.new) (E.stream events.new) result }
    ensures checked { (all start : List ℕ) → command ≡ asked.Check → T.text texts.old name.now ≡ Some all → D.printed desk.old ≡ Some start →
        AnsweredCheck all start (D.printed desk.new) result }
    ensures unread { command ≡ asked.Check → E.stream events.new ≡ E.stream events.old }
    ensures caused { Caused result (T.faults texts.old name.now) (T.faults texts.new name.now) (E.faults events.old) (E.faults events.new) (D.print_faults desk.old) (D.print_faults desk.new) }
{
    match text_of(alloc, texts, name) {
        Err(answer) => answer,
        Ok(text) => match command {
            Command::Run => run_text(alloc, text, events, desk),
            Command::Check => check_text(alloc, &text, desk),
        },
    }
}

/// Answers `lps` on the words after the program's name. `run TEXT` reads the text of that name and a stream of numbered batches,
/// and prints the report of the run: the block of cycle 0, a block for each batch as soon as its line has ended, and the last
/// line. `check TEXT` prints the canonical text of the text.
///
/// Where the stream was read to its end and the report is whole, `Done` says that each goal is solved, and `Unfinished` how many are
/// pending, have failed and are cut.
///
/// `Usage` comes where the words are no command; `TextRefused` where the text is too long, is no text, is not accepted, or,
/// for `run`, has a statement that is not run yet: a macro clause, or a rule with an alternative that calls a macro.
/// `BatchRefused` comes at the first line of the stream that is not the batch of its cycle; `CycleLimit` at a batch after 1,000,000
/// cycles; `StreamLimit` where more than 68,719,476,736 bytes were taken from the stream. A fault is that of the object which failed. What was printed before an answer stays; nothing is printed before the
/// text is read.
pub fn lps<T: Texts, E: Source, D: Desk>(
    alloc: Global,
    words: &[String],
    texts: &mut T,
    events: &mut E,
    desk: &mut D,
) -> Answer
    // The words are refused exactly where they are no command.
    ensures usage { (result ≡ Answer.Usage UsageKind.Words) ↔ (command_of_words (words_of words.now) ≡ None) }

    // What each other answer of a run says of the text, of the stream, and of what was printed.
    ensures told { (name all : List ℕ) (before : Stream) (start : List ℕ) → command_of_words (words_of words.now) ≡ Some (asked.Run, name) →
        T.text texts.old name ≡ Some all → E.stream events.old ≡ Some before → D.printed desk.old ≡ Some start →
        Answered all before.left start (D.printed desk.new) (E.stream events.new) result }

    // What each other answer of a check says of the text and of what was printed.
    ensures checked { (name all start : List ℕ) → command_of_words (words_of words.now) ≡ Some (asked.Check, name) →
        T.text texts.old name ≡ Some all → D.printed desk.old ≡ Some start → AnsweredCheck all start (D.printed desk.new) result }

    // A check leaves the stream as it is.
    ensures unread { (name : List ℕ) → command_of_words (words_of words.now) ≡ Some (asked.Check, name) → E.stream events.new ≡ E.stream events.old }

    // The limit on the stream is reported exactly where it was passed.
    ensures limit { (before after : Stream) → E.stream events.old ≡ Some before → E.stream events.new ≡ Some after →
        (result ≡ Answer.StreamLimit) ↔ (2 ^ 36 + length after.left < length before.left) }

    // Before the run nothing is printed, also where the desk does not tell what is.
    ensures silent { IsSilent result → D.printed desk.new ≡ D.printed desk.old }

    // A fault is answered only where its count rose, and each other answer only where no count did: of the named text alone,
    // since nothing is known of its count once another text was read.
    ensures caused { (name : List ℕ) → NamesNoOther (words_of words.now) name → Caused result (T.faults texts.old name) (T.faults texts.new name) (E.faults events.old) (E.faults events.new) (D.print_faults desk.old) (D.print_faults desk.new) }
{
    match command_of(words) {
        Some((command, name)) => answer_command(alloc, command, name, texts, events, desk),
        None => Answer::Usage(UsageKind::Words),
    }
}
