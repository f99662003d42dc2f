//! Sets of facts that change and are taken back.
use lps_facts::Facts;
use lps_terms::Effects;
use lps_tests_written::{atom_of, atoms_of, shown};
use std::alloc::Global;
use std::process::Abort;
use std::test::Fail;

/// What is done to a set.
#[derive(Clone, Copy)]
enum Step {
    Insert(&'static str),
    Remove(&'static str),
}

use Step::{Insert, Remove};

/// Makes the step. True where it changes the set.
fn make_step(alloc: Global, facts: &mut Facts, step: Step) -> Result<bool, Fail> {
    match step {
        Insert(fact) => Ok(facts.insert(&atom_of(alloc, fact)?)?),
        Remove(fact) => Ok(facts.remove(&atom_of(alloc, fact)?)?),
    }
}

/// Checks the facts in order.
fn check(rt: &impl Abort, alloc: Global, facts: &Facts, want: &str) -> Result<(), Fail> {
    let sorted = facts.sorted(alloc)?;
    let found = shown(alloc, sorted.as_slice())?;
    assert_eq!(rt; found.as_slice(), want.as_bytes());
    Ok(())
}

/// Steps one after the other, whether each changes the set, and the facts after it.
const STEPS: [(Step, bool, &str); 6] = [
    (Insert("p(b)"), true, "p(b) "),
    (Insert("p(a)"), true, "p(a) p(b) "),
    (Insert("p(b)"), false, "p(a) p(b) "),
    (Remove("p(a)"), true, "p(b) "),
    (Remove("p(z)"), false, "p(b) "),
    (Insert("p(a)"), true, "p(a) p(b) "),
];

#[test]
fn changes(rt: HostRuntime) -> Result<(), Fail> {
    let mut facts = Facts::new(rt.alloc());
    let mark = facts.mark();
    for (one, changed, want) in STEPS {
        assert_eq!(rt; make_step(rt.alloc(), &mut facts, one)?, changed);
        check(&rt, rt.alloc(), &facts, want)?;
    }
    facts.undo_to(&mark);
    check(&rt, rt.alloc(), &facts, "")
}

/// What is initiated and terminated at once is there.
#[test]
fn effects(rt: HostRuntime) -> Result<(), Fail> {
    let alloc = rt.alloc();
    let mut facts = Facts::new(alloc);
    facts.insert_all(atoms_of(alloc, "p(a), q, p(d), q")?.as_slice())?;
    facts.apply(Effects {
        initiated: atoms_of(alloc, "p(c), p(b)")?,
        terminated: atoms_of(alloc, "p(b), p(a)")?,
    })?;
    check(&rt, alloc, &facts, "p(b) p(c) p(d) q ")?;
    assert!(rt; facts.contains(&atom_of(alloc, "q")?));
    assert!(rt; !facts.contains(&atom_of(alloc, "p(a)")?));
    Ok(())
}

/// Checks the facts as they are printed.
fn check_print(rt: &impl Abort, alloc: Global, facts: &Facts, want: &str) -> Result<(), Fail> {
    let mut text = Vec::new(alloc);
    facts.print(&mut text)?;
    assert_eq!(rt; text.as_slice(), want.as_bytes());
    Ok(())
}

/// Once settled, a set is not taken back further.
#[test]
fn settling(rt: HostRuntime) -> Result<(), Fail> {
    let alloc = rt.alloc();
    let mut facts = Facts::new(alloc);
    make_step(alloc, &mut facts, Insert("p(a)"))?;
    make_step(alloc, &mut facts, Insert("p(b)"))?;
    make_step(alloc, &mut facts, Remove("p(a)"))?;
    facts.settle();
    check_print(&rt, alloc, &facts, " p(b)")?;
    let mark = facts.mark();
    make_step(alloc, &mut facts, Insert("p(a)"))?;
    check_print(&rt, alloc, &facts, " p(a), p(b)")?;
    facts.undo_to(&mark);
    check_print(&rt, alloc, &facts, " p(b)")
}
