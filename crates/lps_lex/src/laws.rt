//! What holds of the definitions that the contracts cite.
ghost use Rattle.std.specs.Prelude.{◌≡◌, ◌↔◌, ℕ, List};
ghost use Rattle.lps_lex.specs.Lexing.{lexed, Lexing};
ghost use Rattle.lps_lex.specs.Reads.{Reads};

/// The table of tokens and the rules of reading allow exactly one list of tokens and one first fault of any bytes.
/// They are those of the definition.
pub fn tokens_are_those_of_the_table()
    ensures { (bytes : List ℕ) (found : Lexing) → Reads 0 1 bytes found.tokens found.fault ↔ (lexed bytes ≡ found) }
{}
