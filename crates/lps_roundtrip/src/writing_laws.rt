//! What the definitions say of bytes that show words, each as the contract of a function that does nothing.
ghost use Rattle.std.specs.Prelude.{◌≡◌, ◌++◌, ℕ, suc, List, None};
ghost use Rattle.lps_terms.specs.declared.statement.Statement.{Statement};
ghost use Rattle.lps_terms.specs.declared.text.Text.{Text};
ghost use Rattle.lps_grammar.specs.Statements as gs;
ghost use Rattle.lps_lex.specs.Lexing.{lexed};
ghost use Rattle.lps_numbering.specs.declared.names.Names.{Names};
ghost use Rattle.lps_printer.specs.Statements.{canonical, statement_text};
ghost use Rattle.lps_roundtrip.specs.Lines.{AreAllFine, AreOf, IsOf, toks_of, words_of_statement, words_of_text};
ghost use Rattle.lps_roundtrip.specs.Shown.{AreFine, Shown};
ghost use Rattle.lps_roundtrip.specs.Words.{Word, words_in};

/// Bytes that show words are read without a fault, as tokens at which exactly these words stand.
pub fn shown_is_lexed()
    ensures { (bytes : List ℕ) (words : List Word) → Shown 1 bytes words → ((lexed bytes).fault ≡ None) × (words_in bytes (lexed bytes).tokens ≡ words) }
{}

/// The canonical text of a statement shows what is written for its canonical tree, in this line, where each token is one of the language.
pub fn statements_are_shown()
    ensures { (names : Names) (tree : gs.Statement) (statement : Statement) (line : ℕ) (rest : List ℕ) (words : List Word) → IsOf names tree statement → AreFine names (toks_of tree)
        → Shown (suc line) rest words → Shown line (statement_text statement ++ rest) (words_of_statement names line tree ++ words) }
{}

/// The canonical text shows what is written for the canonical tree of each statement, each in a line of its own from the first on.
pub fn texts_are_shown()
    ensures { (names : List Names) (tree : gs.Text) (text : Text) → AreOf names tree text.statements → AreAllFine names tree → Shown 1 (canonical text) (words_of_text names 1 tree) }
{}
