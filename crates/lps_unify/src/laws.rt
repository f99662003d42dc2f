//! Laws of the definitions that contracts cite, each as the contract of a function that does nothing.

ghost use Rattle.std.specs.Prelude.{ℕ, ◌≡◌, ◌<◌, true};
ghost use Rattle.lps_terms.specs.declared.term.Term.{Term};
ghost use Rattle.lps_terms.specs.Put.{put};
ghost use Rattle.lps_unify.specs.Weights.{IsWithin, occurrences};
ghost use Rattle.lps_unify.specs.Bindings.{IsLawful, Solves, TrailedBindings, count_of, resolved, standing};

/// Bindings have a solution of their own, which `resolve` puts in, and it is most general: each solution goes through it.
pub fn bindings_have_a_general_solution()
    ensures solution { (b : TrailedBindings) → IsLawful b → Solves (standing b).value b }
    ensures general { (b : TrailedBindings) → IsLawful b → (s : ℕ → Term) → Solves s b → (x : Term) → put s (resolved b x) ≡ put s x }
{}

/// Which variables bindings look at: substitutions that agree on those that there are give terms of these the same value
/// and solve the same bindings.
pub fn solutions_look_at_variables()
    ensures terms { (count : ℕ) (x : Term) → IsWithin count x → (s r : ℕ → Term) → ((w : ℕ) → w < count → s w ≡ r w) → put s x ≡ put r x }
    ensures bindings { (b : TrailedBindings) → IsLawful b → (s r : ℕ → Term) → ((w : ℕ) → w < count_of b → s w ≡ r w) → Solves s b → Solves r b }
{}

/// Which variables stand in a resolved term: those that there are and that are not bound.
pub fn resolved_terms_are_free()
    ensures within { (b : TrailedBindings) → IsLawful b → (x : Term) → IsWithin (count_of b) x → IsWithin (count_of b) (resolved b x) }
    ensures free { (b : TrailedBindings) → IsLawful b → (x : Term) (v : ℕ) → (standing b).is_bound v ≡ true → occurrences v (resolved b x) ≡ 0 }
{}
