//! Most general unifiers of terms.
use lps_terms::{Term, print_term};
use lps_tests_written::terms_of;
use lps_unify::{Bindings, canonical};
use std::alloc::Global;
use std::process::Abort;
use std::test::Fail;

/// Unifies terms whose variables are those of the bindings.
pub fn unify(bindings: &mut Bindings, left: &Term, right: &Term) -> Result<bool, Fail> {
    if !bindings.has(left) || !bindings.has(right) {
        return Err(Fail::from("other variables"));
    }
    Ok(bindings.unify(left, right)?)
}

/// The term with what is bound in its place.
pub fn resolved(bindings: &Bindings, term: &Term) -> Result<Term, Fail> {
    if !bindings.has(term) {
        return Err(Fail::from("other variables"));
    }
    Ok(bindings.resolve(term)?)
}

/// Whether the term is no larger than a term may be, with what is bound in its place.
pub fn fits(bindings: &Bindings, term: &Term) -> Result<bool, Fail> {
    if !bindings.has(term) {
        return Err(Fail::from("other variables"));
    }
    Ok(bindings.fits(term))
}

/// Checks the text of a term whose variables are numbered by where they first occur.
pub fn check_term(rt: &impl Abort, alloc: Global, term: &Term, want: &str) -> Result<(), Fail> {
    let copies = canonical(alloc, std::slice::from_ref(term))?;
    let mut text = Vec::new(alloc);
    for copy in copies.as_slice() {
        print_term(copy, &mut text)?;
    }
    assert_eq!(rt; text.as_slice(), want.as_bytes());
    Ok(())
}

/// Two terms, a third one, and what that is once they are unified; or nothing where they are not.
const UNIFIERS: [([&str; 3], Option<&str>); 15] = [
    (["f(X, b)", "f(a, Y)", "f(X, Y)"], Some("f(a, b)")),
    (["X", "s(X)", "X"], None),
    (["f(X, X)", "f(a, b)", "X"], None),
    (["f(X, X)", "f(a, Y)", "Y"], Some("a")),
    (["f(X, Y)", "f(s(Y), s(Z))", "X"], Some("s(s(V0))")),
    (["f(X, Y, Z)", "f(s(Y), s(Z), s(X))", "X"], None),
    (["f(X, Y)", "f(Y, X)", "f(Y, X)"], Some("f(V0, V0)")),
    (["X", "Y", "f(Y, Z, X)"], Some("f(V0, V1, V0)")),
    (["a", "a", "X"], Some("V0")),
    (["a", "b", "X"], None),
    (["3", "-3", "X"], None),
    (["a", "3", "X"], None),
    (["f(a)", "f(a, a)", "X"], None),
    (["f(X)", "g(X)", "X"], None),
    (["f(X, g(X))", "f(-7, Y)", "Y"], Some("g(-7)")),
];

fn check_unifier(
    rt: &impl Abort,
    alloc: Global,
    written: [&str; 3],
    want: Option<&str>,
) -> Result<(), Fail> {
    let [left, right, other] = written;
    let list = format!(in alloc; "{left}, {right}, {other}")?;
    let terms = terms_of(alloc, list.as_str())?;
    let [left, right, other] = terms.as_slice() else {
        return Err(Fail::from("not three terms"));
    };
    let mut bindings = Bindings::new(alloc, 3)?;
    assert_eq!(rt; unify(&mut bindings, left, right)?, want.is_some());
    let found = resolved(&bindings, other)?;
    match want {
        Some(want) => check_term(rt, alloc, &found, want),
        None => check_term(rt, alloc, &found, "V0"),
    }
}

#[test]
fn unifiers(rt: HostRuntime) -> Result<(), Fail> {
    for (written, want) in UNIFIERS {
        check_unifier(&rt, rt.alloc(), written, want)?;
    }
    Ok(())
}

/// Adds two variables, the first of which is number 1.
fn extend(rt: &impl Abort, bindings: &mut Bindings) -> Result<(), Fail> {
    if bindings.count() > 9 {
        return Err(Fail::from("more variables"));
    }
    let first = bindings.extend(2)?;
    assert_eq!(rt; first, 1);
    Ok(())
}

#[test]
fn taken_back(rt: HostRuntime) -> Result<(), Fail> {
    let mut bindings = Bindings::new(rt.alloc(), 1)?;
    let mark = bindings.mark();
    extend(&rt, &mut bindings)?;
    assert!(rt; unify(&mut bindings, &Term::Var(0), &Term::Int(4))?);
    check_term(&rt, rt.alloc(), &resolved(&bindings, &Term::Var(0))?, "4")?;
    bindings.undo_to(&mark);
    check_term(&rt, rt.alloc(), &resolved(&bindings, &Term::Var(0))?, "V0")?;
    extend(&rt, &mut bindings)
}
