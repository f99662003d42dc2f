//! Laws of the definitions that contracts cite, each as the contract of a function that does nothing.

ghost use Rattle.std.specs.Prelude.{ℤ, pos, Option, Some, None, ◌≡◌, ◌≢◌, ◌↔◌, ◌*ℤ◌, ◌+ℤ◌, FitsSigned, IsTrue};
ghost use Rattle.std.specs.Int.{w64};
ghost use Rattle.lps_terms.specs.declared.op.Op.{Op};
ghost use Rattle.lps_terms.specs.declared.op.Op.TheVariants.{Mod};
ghost use Rattle.lps_terms.specs.declared.rel.Rel.{Rel};
ghost use Rattle.lps_terms.specs.declared.expr.Expr.{Expr};
ghost use Rattle.lps_terms.specs.declared.expr.Expr.TheVariants.{Apply, Leaf};
ghost use Rattle.lps_terms.specs.declared.built.Built.TheVariants.{Compare, Differ, Is, Same};
ghost use Rattle.lps_terms.specs.declared.term.Term.{Term};
ghost use Rattle.lps_terms.specs.declared.term.Term.TheVariants.{Int};
ghost use Rattle.lps_values.specs.Division.{LiesFromZeroTo, quotient, remainder};
ghost use Rattle.lps_values.specs.Values.{applied, both, integer_of, value_of};
ghost use Rattle.lps_values.specs.Truth.{Compares, is_true};

/// A quotient and a remainder make up the dividend, the remainder lies between 0 and the divisor, and no other two
/// numbers do so.
pub fn division_rounds_down()
    ensures parts { (a b : ℤ) → a ≡ b *ℤ quotient a b +ℤ remainder a b }
    ensures between { (a b : ℤ) → b ≢ pos 0 → LiesFromZeroTo b (remainder a b) }
    ensures unique { (a b q r : ℤ) → LiesFromZeroTo b r → a ≡ b *ℤ q +ℤ r → (quotient a b ≡ q) × (remainder a b ≡ r) }
{}

/// The value of an expression by its form, that each value is an `i64`, and that `mod` has none only by the divisor 0.
pub fn values_by_form()
    ensures leaf { (x : Term) → value_of (Leaf x) ≡ integer_of x }
    ensures apply { (op : Op) (left right : Expr) → value_of (Apply op left right) ≡ both (applied op) (value_of left) (value_of right) }
    ensures left_over { (a b : ℤ) → b ≢ pos 0 → FitsSigned w64 b → applied Mod a b ≡ Some (remainder a b) }
    ensures fits { (e : Expr) (z : ℤ) → value_of e ≡ Some z → FitsSigned w64 z }
{}

/// What it is for a built-in of each form to be true.
pub fn truth_by_form()
    ensures same { (x y : Term) → IsTrue (is_true (Same x y)) ↔ (x ≡ y) }
    ensures differ { (x y : Term) → IsTrue (is_true (Differ x y)) ↔ (x ≢ y) }
    ensures is_value { (x : Term) (e : Expr) → IsTrue (is_true (Is x e)) ↔ ((z : ℤ) × (x ≡ Int z) × (value_of e ≡ Some z)) }
    ensures compare { (rel : Rel) (left right : Expr) → IsTrue (is_true (Compare rel left right)) ↔ ((x : ℤ) × (y : ℤ) × (value_of left ≡ Some x) × (value_of right ≡ Some y) × Compares rel x y) }
{}
