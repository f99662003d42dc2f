//! Facts that are instances of a pattern.
use lps_facts::Facts;
use lps_tests_written::{atom_of, atoms_of, shown};
use std::alloc::Global;
use std::process::Abort;
use std::test::Fail;

/// Facts of several names, of which one is taken out again.
fn facts(alloc: Global) -> Result<Facts, Fail> {
    let mut facts = Facts::new(alloc);
    let list =
        "p(b, c), q(a, c), q(b, a), q(b, b), q(b, c), q(c, b), q(d, d), r(b, c), p(b), p(a), p";
    facts.insert_all(atoms_of(alloc, list)?.as_slice())?;
    facts.remove(&atom_of(alloc, "q(b, b)")?)?;
    Ok(facts)
}

/// Patterns and their instances.
const PATTERNS: [(&str, &str); 14] = [
    ("q(b, X)", "q(b, a) q(b, c) "),
    ("q(X, c)", "q(a, c) q(b, c) "),
    ("q(X, X)", "q(d, d) "),
    ("q(X, Y)", "q(a, c) q(b, a) q(b, c) q(c, b) q(d, d) "),
    ("q(b, c)", "q(b, c) "),
    ("q(b, b)", ""),
    ("q(e, X)", ""),
    ("q(X)", ""),
    ("p(X, c)", "p(b, c) "),
    ("p(X)", "p(a) p(b) "),
    ("p", "p "),
    ("p(f(X))", ""),
    ("r(b, X)", "r(b, c) "),
    ("s(b, X)", ""),
];

fn check(
    rt: &impl Abort,
    alloc: Global,
    facts: &Facts,
    pattern: &str,
    want: &str,
) -> Result<(), Fail> {
    let found = facts.matching(alloc, &atom_of(alloc, pattern)?)?;
    let text = shown(alloc, found.as_slice())?;
    assert_eq!(rt; text.as_slice(), want.as_bytes(), "{pattern}");
    Ok(())
}

#[test]
fn patterns(rt: HostRuntime) -> Result<(), Fail> {
    let facts = facts(rt.alloc())?;
    for (pattern, want) in PATTERNS {
        check(&rt, rt.alloc(), &facts, pattern, want)?;
    }
    Ok(())
}
