//! What holds of the words that the contracts cite.
ghost use Rattle.std.specs.Prelude.{◌≡◌, ℕ, List, Option, length};
ghost use Rattle.lps_terms.specs.declared.atom.Atom.{Atom};
ghost use Rattle.lps_terms.specs.declared.text.Text.{Text};
ghost use Rattle.lps_batches.specs.declared.batch_bad.BatchBad.{BatchBad};
ghost use Rattle.lps_model.specs.declared.trace.Trace.{Trace};
ghost use Rattle.lps_model.specs.Clauses.{clauses};
ghost use Rattle.lps_limits.specs.declared.full.Full.{Full as Fullness};
ghost use Rattle.lps_derivation.specs.Levels.{AreLevels};
ghost use Rattle.lps_meaning.specs.declared.goal.Counts.{Counts};
ghost use Rattle.lps_meaning.specs.Goals.{IsRuleTrue};
ghost use Rattle.lps_cycle.specs.Engine.{ByLevels};
ghost use Rattle.lps_outside.specs.Bytes.{Stream};
ghost use Rattle.lps_run.specs.Answers.{none_open};
ghost use Rattle.lps_run.specs.Judged.{IsFirstFaulty, IsSound};
ghost use Rattle.lps_run.specs.Stopping.{EndsFullNext, IsRun, Reported};

use lps_meaning::plain_law;
use lps_statuses::rule_law;

/// For a text, a stream has one list of batches, and one first faulty line or none. So each answer of a run comes exactly where
/// its word holds.
pub fn streams_are_judged_one_way()
    ensures sound { (text : Text) (stream : List ℕ) (a b : List (List Atom)) → IsSound text stream a → IsSound text stream b → a ≡ b }
    ensures faulty { (text : Text) (stream : List ℕ) (a b : List (List Atom)) (x y : BatchBad) → IsFirstFaulty text stream a x → IsFirstFaulty text stream b y → (a ≡ b) × (x ≡ y) }
    ensures apart { (text : Text) (stream : List ℕ) (a b : List (List Atom)) (faulty : BatchBad) → IsSound text stream a → IsFirstFaulty text stream b faulty → ⊥ }
{}

/// The whole reports of a text over a stream have the same counts in their last lines. So `Done` and `Unfinished` exclude each other.
pub fn reports_are_counted_one_way()
    ensures same { (text : Text) (level : List ℕ → ℕ) → AreLevels (clauses text) level → (stream start other : List ℕ) (printed shown : Option (List ℕ)) (source ended : Option Stream) (a b : Counts) →
        Reported text stream start printed source a → Reported text stream other shown ended b → a ≡ b }
{
    plain_law();
}

/// A run that ends at a limit is not one of the whole stream: no run of the text over all batches of the stream stays within its limits. So
/// `Full` excludes `Done` and `Unfinished`.
pub fn runs_end_at_limits()
    ensures { (text : Text) (level : List ℕ → ℕ) → AreLevels (clauses text) level → (stream start : List ℕ) (printed : Option (List ℕ)) (full : Fullness) → EndsFullNext text stream start printed full →
        (batches : List (List Atom)) (trace : Trace) → IsSound text stream batches → IsRun text batches trace → ⊥ }
{
    plain_law();
}

/// Where `Done` is answered, the run makes every rule of its text true.
pub fn finished_runs_make_rules_true()
    ensures rules { (text : Text) (stream start : List ℕ) (printed : Option (List ℕ)) (source : Option Stream) → (done : Reported text stream start printed source none_open) →
        ByLevels text (λ level. (n : ℕ) → IsRuleTrue text level done.trace (length done.trace.cycles) n) }
{
    rule_law();
}
