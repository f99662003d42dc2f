//! Laws of the definitions that contracts cite, each as the contract of a function that does nothing.

ghost use Rattle.std.specs.Prelude.{Bool, List, ◌≡◌, ◌&&◌, ◌||◌, if◌then◌else◌, not};
ghost use Rattle.lps_terms.specs.declared.atom.Atom.{Atom};
ghost use Rattle.lps_terms.specs.declared.effects.Effects.{Effects};
ghost use Rattle.lps_terms.specs.Order.{atom_eq};
ghost use Rattle.lps_facts.specs.Facts.{IsLater, TrailedSet, is_among, members, with_effects, with_fact, with_facts};

/// Which facts are in the set after changes. Of effects, initiation wins over termination.
pub fn members_after_changes()
    ensures fact { (inserted : Bool) (fact : Atom) (facts : TrailedSet) (q : Atom) →
        is_among (members (with_fact inserted fact facts)) q ≡ (if atom_eq fact q then inserted else is_among (members facts) q) }
    ensures all { (inserted : Bool) (atoms : List Atom) (facts : TrailedSet) (q : Atom) →
        is_among (members (with_facts inserted atoms facts)) q ≡ (if is_among atoms q then inserted else is_among (members facts) q) }
    ensures effects { (effects : Effects) (facts : TrailedSet) (q : Atom) →
        is_among (members (with_effects effects facts)) q ≡ (is_among effects.initiated q || (is_among (members facts) q && not (is_among effects.terminated q))) }
{}

/// After changes a set goes back to what it was before them.
pub fn changes_go_back()
    ensures fact { (inserted : Bool) (fact : Atom) (facts : TrailedSet) → IsLater facts (with_fact inserted fact facts) }
    ensures effects { (effects : Effects) (facts : TrailedSet) → IsLater facts (with_effects effects facts) }
    ensures further { (x y z : TrailedSet) → IsLater x y → IsLater y z → IsLater x z }
{}
