//! What holds of each text and each line of a stream that was read, as the contracts of functions that do nothing.
ghost use Rattle.std.specs.Prelude.{ℕ, ◌≤◌, List, length, IsTrue};
ghost use Rattle.std.specs.List.{AllByRecursion, list_all};
ghost use Rattle.lps_terms.specs.declared.text.Text.{Text};
ghost use Rattle.lps_terms.specs.Names.{is_proper_name};
ghost use Rattle.lps_model.specs.declared.batch.Batch.{Batch};
ghost use Rattle.lps_model.specs.Formed.{is_formed};
ghost use Rattle.lps_model.specs.Program.{declarations};
ghost use Rattle.lps_derivation.specs.Ground.{is_ground};
ghost use Rattle.lps_batches.specs.Lines.{IsBatchLine};
ghost use Rattle.lps_reader.specs.Texts.{IsTextOf};

/// A text that was read has only names that a text may give, each function with 1 to 64 arguments, integers of 64 bits,
/// variables and times that have names in their statement, constants of constraints of at most a million, no constraint in a
/// denial, and modes where a declaration has them. Its declarations are no more than its bytes may be.
pub fn read_texts_are_formed()
    ensures formed { (bytes : List ℕ) (text : Text) → IsTextOf bytes text → IsTrue (is_formed text) }
    ensures few { (bytes : List ℕ) (text : Text) → IsTextOf bytes text → length (declarations text) ≤ 1048576 }
{}

/// The events of a line that is read as a batch have no variables: each has a name that a text may give, and ground arguments.
pub fn read_events_are_ground()
    ensures { (line : List ℕ) (batch : Batch) → IsBatchLine line batch → AllByRecursion (λ event. IsTrue (is_proper_name event.name) × IsTrue (list_all is_ground event.args)) batch.events }
{}
