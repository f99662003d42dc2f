//! What holds of canonical trees, each as the contract of a function that does nothing.
ghost use Rattle.std.specs.Prelude.{◌≡◌, ◌≤◌, ℕ, List, [], All, Bool, length, map};
ghost use Rattle.lps_grammar.specs.declared.tok.Tok.{Tok};
ghost use Rattle.lps_grammar.specs.Terms as te;
ghost use Rattle.lps_grammar.specs.Expressions as ex;
ghost use Rattle.lps_grammar.specs.Items as it;
ghost use Rattle.lps_grammar.specs.Statements as st;
ghost use Rattle.lps_grammar.specs.Sizes.{symbols_text};
ghost use Rattle.lps_build.specs.Meaning as m;
ghost use Rattle.lps_syntax.specs.Judging.{IsSmallText};
ghost use Rattle.lps_roundtrip.specs.Canonical as ca;
ghost use Rattle.lps_roundtrip.specs.Thinner.{Thinner};

/// A canonical tree means what the tree means; of a text, each statement has the same body.
pub fn canonical_trees_mean_the_same()
    ensures of_leaves { (vars : Bool) (x : te.Leaf vars) → m.leaf_of (ca.canonical_leaf x) ≡ m.leaf_of x }
    ensures of_terms { (vars : Bool) (x : te.Term vars) → m.term_of (ca.canonical_term x) ≡ m.term_of x }
    ensures of_atoms { (vars : Bool) (x : te.Atom vars) → m.atom_of (ca.canonical_atom x) ≡ m.atom_of x }
    ensures of_units { (x : ex.Unit) → m.unit_of (ca.canonical_unit x) ≡ m.unit_of x }
    ensures of_products { (x : ex.Prod) → m.prod_of (ca.canonical_prod x) ≡ m.prod_of x }
    ensures of_expressions { (x : ex.Expr) → m.expr_of (ca.canonical_expr x) ≡ m.expr_of x }
    ensures of_conditions { (x : it.Cond) → m.cond_of (ca.canonical_cond x) ≡ m.cond_of x }
    ensures of_items { (bounds : Bool) (x : it.Item bounds) → m.item_of (ca.canonical_item x) ≡ m.item_of x }
    ensures of_sequences { (bounds : Bool) (x : it.Seq bounds) → m.seq_of (ca.canonical_seq x) ≡ m.seq_of x }
    ensures of_statements { (x : st.Statement) → m.body_of (ca.canonical_statement x) ≡ m.body_of x }
    ensures of_texts { (x : st.Text) (total new : ℕ) → map (λ placed. placed.1) (m.bodies_of new (ca.canonical_text x)) ≡ map (λ placed. placed.1) (m.bodies_of total x) }
{}

/// The tokens of a canonical tree are those of the tree, with some parentheses, signs and numbers left out.
pub fn only_light_tokens_go()
    ensures of_terms { (vars : Bool) (x : te.Term vars) (rest left : List Tok) → Thinner rest left → Thinner (te.spell_term x rest) (te.spell_term (ca.canonical_term x) left) }
    ensures of_expressions { (x : ex.Expr) (rest left : List Tok) → Thinner rest left → Thinner (ex.spell_expr x rest) (ex.spell_expr (ca.canonical_expr x) left) }
    ensures of_statements { (x : st.Statement) (rest left : List Tok) → Thinner rest left → Thinner (st.spell_statement x rest) (st.spell_statement (ca.canonical_statement x) left) }
    ensures of_texts { (x : st.Text) (rest : List Tok) → Thinner (st.spell_text x rest) (st.spell_text (ca.canonical_text x) rest) }
{}

/// What bounds the symbols of a text bounds those of its canonical text, so where the text is small enough, the canonical one is.
pub fn no_count_grows()
    ensures of_counts { (x : st.Text) (limit : ℕ) → All (λ n. n ≤ limit) (symbols_text x []) → All (λ n. n ≤ limit) (symbols_text (ca.canonical_text x) []) }
    ensures of_limit { (x : st.Text) → IsSmallText (st.spell_text x []) → IsSmallText (st.spell_text (ca.canonical_text x) []) }
{}

/// Expressions that mean the same have one canonical tree, and its tokens are no more than those of any tree that means the same.
pub fn canonical_expressions_are_shortest()
    ensures one_tree { (x y : ex.Expr) → m.expr_of x ≡ m.expr_of y → ca.canonical_expr x ≡ ca.canonical_expr y }
    ensures fewest_tokens { (x y : ex.Expr) → m.expr_of x ≡ m.expr_of y → length (ex.spell_expr (ca.canonical_expr x) []) ≤ length (ex.spell_expr y []) }
{}
