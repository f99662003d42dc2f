//! What the definitions say of the tokens of trees, each as the contract of a function that does nothing.
ghost use Rattle.std.specs.Prelude.{◌≡◌, ◌∷◌, ℕ, List, Some, Bool, true};
ghost use Rattle.lps_grammar.specs.declared.tok.Tok.{Tok};
ghost use Rattle.lps_grammar.specs.Terms.{spell_atom, spell_term};
ghost use Rattle.lps_grammar.specs.Terms as g;
ghost use Rattle.lps_grammar.specs.Expressions.{spell_expr};
ghost use Rattle.lps_grammar.specs.Expressions as ge;
ghost use Rattle.lps_grammar.specs.Items.{spell_cond, spell_conds, spell_item, spell_seq};
ghost use Rattle.lps_grammar.specs.Items as gi;
ghost use Rattle.lps_build.specs.Ends.{End, Stop};
ghost use Rattle.lps_build.specs.Fits.{EndsName, EndsProd, EndsSum, Fits};
ghost use Rattle.lps_build.specs.Meaning.{atom_of, cond_of, conds_of, expr_of, item_of, seq_of, term_of};
ghost use Rattle.lps_build.specs.ReadExpressions.{expr_in};
ghost use Rattle.lps_build.specs.ReadItems.{cond_in, item_in, parts_in};
ghost use Rattle.lps_build.specs.ReadTerms.{atom_in, term_in};

/// The tokens of a part are read as what the part means, with what comes after it left.
pub fn parts_are_read()
    ensures terms { (x : g.Term true) (d : ℕ) (rest : List Tok) → Fits d (spell_term x rest) → EndsName rest → term_in d (spell_term x rest) ≡ Some (term_of x, rest) }
    ensures atoms { (x : g.Atom true) (d : ℕ) (rest : List Tok) → Fits d (spell_atom x rest) → EndsName rest → atom_in d (spell_atom x rest) ≡ Some (atom_of x, rest) }
    ensures exprs { (x : ge.Expr) (d : ℕ) (rest : List Tok) → Fits d (spell_expr x rest) → EndsProd rest → EndsSum rest → expr_in d (spell_expr x rest) ≡ Some (expr_of x, rest) }
    ensures conds { (x : gi.Cond) (d : ℕ) (rest : List Tok) → Fits d (spell_cond x rest) → Stop rest → cond_in d (spell_cond x rest) ≡ Some (cond_of x, rest) }
    ensures cond_lists { (x : gi.Cond) (xs : gi.MoreConds) (d : ℕ) (rest : List Tok) → Fits d (spell_cond x (spell_conds xs rest)) → End rest → parts_in cond_in d (spell_cond x (spell_conds xs rest)) ≡ Some (cond_of x ∷ conds_of xs, rest) }
    ensures items { (bounds : Bool) (x : gi.Item bounds) (d : ℕ) (rest : List Tok) → Fits d (spell_item x rest) → Stop rest → item_in d (spell_item x rest) ≡ Some (item_of x, rest) }
    ensures seqs { (bounds : Bool) (x : gi.Seq bounds) (d : ℕ) (rest : List Tok) → Fits d (spell_seq x rest) → End rest → parts_in item_in d (spell_seq x rest) ≡ Some (seq_of x, rest) }
{}
