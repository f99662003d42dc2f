//! Laws of effects, each the contract of a function that does nothing.
ghost use Rattle.std.specs.Prelude.{ℕ, suc, Bool, true, List, length, Contains, ◌≡◌, ◌++◌, ◌↔◌, ◌⊎◌};
ghost use Rattle.lps_terms.specs.declared.atom.Atom.{Atom};
ghost use Rattle.lps_terms.specs.declared.effects.Effects.{Effects};
ghost use Rattle.lps_terms.specs.declared.text.Text.{Text};
ghost use Rattle.lps_facts.specs.Facts.{TrailedSet, members, with_effects, with_facts};
ghost use Rattle.lps_model.specs.declared.cycle.Cycle.{Cycle};
ghost use Rattle.lps_model.specs.declared.trace.Trace.{Trace};
ghost use Rattle.lps_model.specs.Trace.{happens_in, then_cycle};
ghost use Rattle.lps_meaning.specs.Holds.{Causes};
ghost use Rattle.lps_meaning.specs.Reports.{IsState};
ghost use Rattle.lps_causal.specs.Effects.{AreEffects};
ghost use Rattle.lps_causal.specs.Next.{AreBegun, IsAfter};

/// Where a set of facts is the state that a trace has come to, the set after the effects of what happens in one cycle more is
/// the state that the trace comes to with that cycle; and the set is still the state before it.
pub fn effects_make_the_next_state()
    ensures next { (text : Text) (level : List ℕ → ℕ) (trace : Trace) (cycle : Cycle) (facts : TrailedSet) (effects : Effects) →
        IsState text level trace (length trace.cycles) (members facts) → AreEffects text level (members facts) (happens_in cycle) effects →
        IsState text level (then_cycle trace cycle) (suc (length trace.cycles)) (members (with_effects effects facts)) }
    ensures before { (text : Text) (level : List ℕ → ℕ) (trace : Trace) (cycle : Cycle) (facts : TrailedSet) →
        IsState text level trace (length trace.cycles) (members facts) → IsState text level (then_cycle trace cycle) (length trace.cycles) (members facts) }
{}

/// What some events and more of them cause in one state is what the ones cause and what the others cause. So the effects of more
/// events can be made on top of those before, without asking for these again: but for terminations of what was initiated before.
pub fn effects_add_up()
    ensures causes { (text : Text) (level : List ℕ → ℕ) (initiates : Bool) (facts events more : List Atom) (fluent : Atom) →
        Causes text level initiates (Contains facts) (events ++ more) fluent ↔ (Causes text level initiates (Contains facts) events fluent ⊎ Causes text level initiates (Contains facts) more fluent) }
    ensures begun { (text : Text) (level : List ℕ → ℕ) (facts events more : List Atom) (effects : Effects) (begun : TrailedSet) →
        AreEffects text level facts more effects → AreBegun text level facts events (members begun) → AreBegun text level facts (events ++ more) (members (with_facts true effects.initiated begun)) }
    ensures after { (text : Text) (level : List ℕ → ℕ) (facts events more : List Atom) (effects made : Effects) (begun after : TrailedSet) →
        AreEffects text level facts more effects → AreBegun text level facts events (members begun) → made.initiated ≡ effects.initiated →
        ((fluent : Atom) → Contains made.terminated fluent ↔ (Contains effects.terminated fluent × (Contains (members begun) fluent → ⊥))) →
        IsAfter text level facts events (members after) → IsAfter text level facts (events ++ more) (members (with_effects made after)) }
{}
