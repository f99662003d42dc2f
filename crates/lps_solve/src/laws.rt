//! The law of programs, the contract of a function that does nothing.
ghost use Rattle.std.specs.Prelude.{◌≡◌, IsTrue, List, Contains};
ghost use Rattle.lps_terms.specs.declared.atom.Atom.{Atom};
ghost use Rattle.lps_terms.specs.declared.text.Text.{Text};
ghost use Rattle.lps_model.specs.Acceptance.{IsAccepted};
ghost use Rattle.lps_model.specs.Formed.{is_formed};
ghost use Rattle.lps_model.specs.Clauses.{clauses};
ghost use Rattle.lps_solve.specs.Answers.{IsSound};
ghost use Rattle.lps_solve.specs.Met.{AreGround};

/// What `answers` asks of a program and its facts holds of the clauses of an accepted text and of ground facts: its levels
/// are levels of the clauses, and its clauses are ground but for their variables.
pub fn accepted_texts_are_sound()
    ensures { (text : Text) → IsAccepted text → IsTrue (is_formed text) → (facts : List Atom) → ((a : Atom) → Contains facts a → AreGround a.args) → IsSound (clauses text) facts }
{}
