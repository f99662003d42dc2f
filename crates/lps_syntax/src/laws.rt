//! What holds of the words that the contracts cite.
ghost use Rattle.std.specs.Prelude.{◌≡◌, ◌↔◌, ◌++◌, List, [], ◌∷◌, Some};
ghost use Rattle.lps_grammar.specs.declared.tok.Tok.{Tok};
ghost use Rattle.lps_grammar.specs.Lines.{BeginsLine, IsLine};
ghost use Rattle.lps_grammar.specs.Statements.{BeginsText, IsText};
ghost use Rattle.lps_syntax.specs.declared.frame.Frame.{Frame};
ghost use Rattle.lps_syntax.specs.declared.frame.Frame.TheVariants.{Line, Text};
ghost use Rattle.lps_syntax.specs.declared.line_verdict.LineVerdict.{LineVerdict};
ghost use Rattle.lps_syntax.specs.declared.text_verdict.TextVerdict.{TextVerdict};
ghost use Rattle.lps_syntax.specs.Judging.{IsLineVerdict, IsSmallText, IsTextVerdict, KeepsLimits};
ghost use Rattle.lps_syntax.specs.Runs.{run};

/// Where a text is expected, exactly what the grammar spells is run through: the tokens of texts to where a text may end,
/// and the tokens that begin a text to where anything is expected.
pub fn texts_are_run_through()
    ensures whole { (toks : List Tok) → (run (Text ∷ []) toks ≡ Some (Text ∷ [])) ↔ IsText toks }
    ensures begun { (toks : List Tok) → ((expected : List Frame) × (run (Text ∷ []) toks ≡ Some expected)) ↔ BeginsText toks }
{}

/// Where a line of events is expected, exactly what the grammar spells is run through.
pub fn lines_are_run_through()
    ensures whole { (toks : List Tok) → (run (Line ∷ []) toks ≡ Some []) ↔ IsLine toks }
    ensures begun { (toks : List Tok) → ((expected : List Frame) × (run (Line ∷ []) toks ≡ Some expected)) ↔ BeginsLine toks }
{}

/// Of any tokens only one verdict stands, so each answer comes exactly where its word holds.
pub fn verdicts_exclude_each_other()
    ensures of_texts { (toks : List Tok) (a b : TextVerdict) → IsTextVerdict a toks → IsTextVerdict b toks → a ≡ b }
    ensures of_lines { (toks : List Tok) (a b : LineVerdict) → IsLineVerdict a toks → IsLineVerdict b toks → a ≡ b }
{}

/// Where tokens begin a text or a line, the first of them do, and these keep the limits that all of them keep.
pub fn first_tokens_are_alike()
    ensures of_texts { (toks more : List Tok) → BeginsText (toks ++ more) → BeginsText toks × (IsSmallText (toks ++ more) → IsSmallText toks) }
    ensures of_lines { (toks more : List Tok) → BeginsLine (toks ++ more) → BeginsLine toks × (KeepsLimits (toks ++ more) → KeepsLimits toks) }
{}
