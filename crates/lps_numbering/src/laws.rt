//! What holds of the definitions that the contracts cite.
ghost use Rattle.std.specs.Prelude.{◌≡◌, ℕ, List, All, Contains};
ghost use Rattle.lps_terms.specs.Names.{reserved};
ghost use Rattle.lps_lex.specs.Forms.{signs};
ghost use Rattle.lps_lex.specs.declared.token.Token.{Token};
ghost use Rattle.lps_lex.specs.declared.token_kind.TokenKind.TheVariants.{Time, Variable};
ghost use Rattle.lps_numbering.specs.declared.names.Names.{Names};
ghost use Rattle.lps_numbering.specs.Fixed.{reserved_tok, sign_tok, text_of_fixed};
ghost use Rattle.lps_numbering.specs.Laws.{AreEqualWhereAlike, AreNamed, IsNoStop};
ghost use Rattle.lps_numbering.specs.Numbers.{statements_of, toks_of};

/// Two variables of a statement, or two times, have equal numbers exactly where they are written alike and not `_`.
pub fn equal_numbers_are_equal_names()
    ensures variables { (bytes : List ℕ) (so_far : Names) (first : Token) (between : List Token) (last : Token) → first.kind ≡ Variable → last.kind ≡ Variable → All (IsNoStop bytes) between → AreEqualWhereAlike bytes so_far first between last }
    ensures times { (bytes : List ℕ) (so_far : Names) (first : Token) (between : List Token) (last : Token) → first.kind ≡ Time → last.kind ≡ Time → All (IsNoStop bytes) between → AreEqualWhereAlike bytes so_far first between last }
{}

/// Each variable and each time has a number, below the count of the names of its statement, and the name there is the
/// written one.
pub fn numbers_lead_to_names()
    ensures { (bytes : List ℕ) (tokens : List Token) → AreNamed bytes (statements_of bytes tokens) tokens (toks_of bytes tokens) }
{}

/// The token of a reserved word or a sign is the one that is spelled so.
pub fn fixed_tokens_are_spelled()
    ensures words { (text : List ℕ) → Contains reserved text → text_of_fixed (reserved_tok text) ≡ text }
    ensures marks { (text : List ℕ) → Contains signs text → text_of_fixed (sign_tok text) ≡ text }
{}
