//! What picks are, where a world stands for a cycle that may follow a trace of a text.

ghost use Rattle.std.specs.Prelude.{◌↔◌, List, ℕ, [], length};
ghost use Rattle.lps_terms.specs.declared.atom.Atom.{Atom};
ghost use Rattle.lps_terms.specs.declared.prefer.Prefer.{Prefer};
ghost use Rattle.lps_terms.specs.declared.text.Text.{Text};
ghost use Rattle.lps_model.specs.declared.cycle.Pick.{Pick};
ghost use Rattle.lps_model.specs.declared.trace.Trace.{Trace};
ghost use Rattle.lps_meaning.specs.declared.goal.GoalKey.{GoalKey};
ghost use Rattle.lps_meaning.specs.Cycles.{ArePicks as ArePicksOf};
ghost use Rattle.lps_meaning.specs.Plain.{AllPasses as AllPassesOf, order_of};
ghost use Rattle.lps_choice.specs.Choices.{ArePicks, IsSettled};
ghost use Rattle.lps_choice.specs.Passes.{ArePlain};
ghost use Rattle.lps_choice.specs.Standing.{IsChoiceOf, NoMore};

use crate::world::World;

/// Where the choice of a world is that of the next cycle of a trace, picks that may be made are legal picks of that cycle, none is
/// left to be made where each proposal of a goal without a pick violates a denial, and the picks of the plain chooser are
/// plain.
pub fn choice_law<W: World>()
    ensures picks { (text : Text) (level : List ℕ → ℕ) (depth : ℕ) (trace : Trace) (keys : List GoalKey) (events : List Atom) (fixed : W.Fixed) →
        IsChoiceOf text level depth trace keys events (W.choice fixed) → (picks : List Pick) →
        ArePicks (W.choice fixed) [] picks ↔ ArePicksOf text level depth trace keys [] events picks }
    ensures settled { (text : Text) (level : List ℕ → ℕ) (depth : ℕ) (trace : Trace) (keys : List GoalKey) (events : List Atom) (fixed : W.Fixed) →
        IsChoiceOf text level depth trace keys events (W.choice fixed) → (picks : List Pick) →
        IsSettled (W.choice fixed) picks ↔ NoMore text level depth trace keys events picks }
    ensures plain { (text : Text) (level : List ℕ → ℕ) (depth : ℕ) (trace : Trace) (keys : List GoalKey) (events : List Atom) (fixed : W.Fixed) →
        IsChoiceOf text level depth trace keys events (W.choice fixed) → (prefer : Prefer) (picks : List Pick) →
        ArePlain (W.choice fixed) prefer [] picks → AllPassesOf text level depth trace keys (order_of prefer (length keys)) [] events picks }
{}
