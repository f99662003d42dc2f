//! Laws of the definitions that contracts cite, each as the contract of a function that does nothing.

ghost use Rattle.std.specs.Prelude.{ℕ, ℤ, List, ◌≡◌, ◌<◌, length, IsTrue};
ghost use Rattle.std.specs.Cmp.{IsTotalOrder};
ghost use Rattle.std.specs.Cmp.Lexicographic.{slice_cmp};
ghost use Rattle.std.specs.Ordering.{int_cmp, nat_cmp, ordering_then};
ghost use Rattle.std.specs.declared.cmp.Ordering.TheVariants.{Equal, Less};
ghost use Rattle.lps_terms.specs.declared.atom.Atom.{Atom};
ghost use Rattle.lps_terms.specs.declared.term.Term.{Term};
ghost use Rattle.lps_terms.specs.declared.term.Term.TheVariants.{App, Int, Sym, Var};
ghost use Rattle.lps_terms.specs.Names.{is_name, is_proper_name};
ghost use Rattle.lps_terms.specs.Order.{atom_cmp, name_cmp, rank_of, term_cmp};
ghost use Rattle.lps_terms.specs.Put.{after, put, put_atom};

/// What a text may give as a name is a name.
pub fn proper_names_are_names()
    ensures { (bytes : List ℕ) → IsTrue (is_proper_name bytes) → IsTrue (is_name bytes) }
{}

/// The orders of terms and of atoms are total, and only equal ones tie.
pub fn order_is_total()
    ensures terms { IsTotalOrder term_cmp }
    ensures term_ties { (x y : Term) → term_cmp x y ≡ Equal → x ≡ y }
    ensures term_itself { (x : Term) → term_cmp x x ≡ Equal }
    ensures atoms { IsTotalOrder atom_cmp }
    ensures atom_ties { (a b : Atom) → atom_cmp a b ≡ Equal → a ≡ b }
    ensures atom_itself { (a : Atom) → atom_cmp a a ≡ Equal }
{}

/// How terms of each two forms stand in order.
pub fn order_by_form()
    ensures ranks { (x y : Term) → rank_of x < rank_of y → term_cmp x y ≡ Less }
    ensures variables { (v w : ℕ) → term_cmp (Var v) (Var w) ≡ nat_cmp v w }
    ensures integers { (z w : ℤ) → term_cmp (Int z) (Int w) ≡ int_cmp z w }
    ensures constants { (n m : List ℕ) → term_cmp (Sym n) (Sym m) ≡ name_cmp n m }
    ensures constant_first { (n m : List ℕ) (ys : List Term) → term_cmp (Sym n) (App m ys) ≡ ordering_then (name_cmp n m) Less }
    ensures functions { (n m : List ℕ) (xs ys : List Term) → term_cmp (App n xs) (App m ys) ≡ ordering_then (name_cmp n m) (ordering_then (nat_cmp (length xs) (length ys)) (slice_cmp term_cmp xs ys)) }
{}

/// Two substitutions one after the other are one.
pub fn substitution_composes()
    ensures terms { (s r : ℕ → Term) (x : Term) → put s (put r x) ≡ put (after s r) x }
    ensures atoms { (s r : ℕ → Term) (a : Atom) → put_atom s (put_atom r a) ≡ put_atom (after s r) a }
{}
