//! What is read of a printed text, and the two steps to it, each as the contract of a function that does nothing.
ghost use Rattle.std.specs.Prelude.{◌≡◌, ℕ, List, None, Result};
ghost use Rattle.lps_terms.specs.declared.text.Text.{Text};
ghost use Rattle.lps_lex.specs.declared.token.Token.{Token};
ghost use Rattle.lps_grammar.specs.declared.tok.Tok.{Tok};
ghost use Rattle.lps_numbering.specs.Numbers.{crowded_of, no_names, statements_of, toks_of};
ghost use Rattle.lps_reader.specs.Refusals.{IsShort, tokens_in};
ghost use Rattle.lps_reader.specs.declared.read_error.ReadError.{ReadError};
ghost use Rattle.lps_reader.specs.Texts.{IsReadOf, IsTextOf};
ghost use Rattle.lps_printer.specs.Statements.{canonical};
ghost use Rattle.lps_roundtrip.specs.Words.{words_in};
ghost use Rattle.lps_roundtrip.specs.Thinner.{Thinner};
ghost use Rattle.lps_roundtrip.specs.Along.{AreFineAlong, words_along};
ghost use Rattle.lps_roundtrip.specs.Numbered.{crowded_by, statements_by, toks_by};
ghost use Rattle.lps_roundtrip.specs.RoundTrip.{in_lines, IsReadAs};

/// The numbers of variables and times depend only on the kind and the text of each token, and so do the names by number and
/// the first place of a variable too many.
pub fn numbering_depends_on_the_words()
    ensures toks { (bytes : List ℕ) (tokens : List Token) → toks_of bytes tokens ≡ toks_by no_names (words_in bytes tokens) }
    ensures statements { (bytes : List ℕ) (tokens : List Token) → statements_of bytes tokens ≡ statements_by no_names (words_in bytes tokens) }
    ensures crowded { (bytes : List ℕ) (tokens : List Token) → crowded_of bytes tokens ≡ crowded_by no_names 0 (words_in bytes tokens) }
{}

/// What is written for the tokens of bytes, with or without some parentheses, signs and numbers, is numbered as these tokens
/// again, with the same names for each statement: each is a token of the language, and none is a variable too many where
/// none was.
pub fn written_tokens_are_numbered_again()
    ensures toks { (bytes : List ℕ) (us : List Tok) (line : ℕ) → Thinner (toks_of bytes (tokens_in bytes)) us → toks_by no_names (words_along (statements_of bytes (tokens_in bytes)) line us) ≡ us }
    ensures statements { (bytes : List ℕ) (us : List Tok) (line : ℕ) → Thinner (toks_of bytes (tokens_in bytes)) us
        → statements_by no_names (words_along (statements_of bytes (tokens_in bytes)) line us) ≡ statements_of bytes (tokens_in bytes) }
    ensures crowded { (bytes : List ℕ) (us : List Tok) (line : ℕ) → Thinner (toks_of bytes (tokens_in bytes)) us → crowded_of bytes (tokens_in bytes) ≡ None
        → crowded_by no_names 0 (words_along (statements_of bytes (tokens_in bytes)) line us) ≡ None }
    ensures fine { (bytes : List ℕ) (us : List Tok) → Thinner (toks_of bytes (tokens_in bytes)) us → AreFineAlong (statements_of bytes (tokens_in bytes)) us }
{}

/// The canonical text of a text that was read is that text, each statement in a line of its own, where it is no longer than
/// a text may be. The reader gives it, unless memory runs out, and its own canonical text is the same.
pub fn printed_text_is_read_back()
    ensures text { (bytes : List ℕ) (text : Text) → IsTextOf bytes text → IsShort (canonical text) → IsTextOf (canonical text) (in_lines 1 text) }
    ensures reader { (bytes : List ℕ) (text : Text) (result : Result Text ReadError) → IsTextOf bytes text → IsShort (canonical text) → IsReadOf (canonical text) result → IsReadAs (in_lines 1 text) result }
    ensures printed { (line : ℕ) (text : Text) → canonical (in_lines line text) ≡ canonical text }
{}
