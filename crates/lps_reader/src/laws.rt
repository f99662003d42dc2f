//! What holds of the words that the contracts cite.
ghost use Rattle.std.specs.Prelude.{◌≡◌, ℕ, List, None};
ghost use Rattle.lps_terms.specs.declared.read_refused.ReadRefused.{ReadRefused};
ghost use Rattle.lps_terms.specs.declared.text.Text.{Text};
ghost use Rattle.lps_reader.specs.Refusals.{IsRefusal, IsRefusedAs};
ghost use Rattle.lps_reader.specs.Texts.{IsTextOf};

/// Of any bytes only one refusal stands, and none of a text within its limits, so each answer comes exactly where its word
/// holds.
pub fn refusals_exclude_each_other()
    ensures one { (bytes : List ℕ) (a b : ReadRefused) → IsRefusal bytes a → IsRefusal bytes b → a ≡ b }
    ensures none { (bytes : List ℕ) (refusal : ReadRefused) → IsRefusedAs bytes None → IsRefusal bytes refusal → ⊥ }
{}

/// Bytes are one text.
pub fn texts_are_unique()
    ensures { (bytes : List ℕ) (text other : Text) → IsTextOf bytes text → IsTextOf bytes other → text ≡ other }
{}

/// No bytes are both a text and refused.
pub fn texts_are_not_refused()
    ensures { (bytes : List ℕ) (text : Text) (refusal : ReadRefused) → IsTextOf bytes text → IsRefusal bytes refusal → ⊥ }
{}
