//! The effects of events, and the denials that they violate.
use crate::program::{effects_in, initial_facts, program_of, theory_of, tried_in};
use lps_tests_written::{atoms_of, shown};
use std::alloc::Global;
use std::process::Abort;
use std::test::Fail;

const ORDERS: &str =
    "event order/1. false order(X) from T1 to T2, order(Y) from T1 to T2, X \\= Y.";

const SALES: &str = "fluent stock/2, sold/1. event sell/1. initially stock(a, 0), stock(b, 1).
sell(X) initiates sold(X). false sell(X) from T1 to T2, stock(X, 0) at T1.";

const ROOM: &str = "fluent in/1. event enter/1, leave/1. initially in(a).
enter(X) initiates in(X). leave(X) terminates in(X).
false enter(X) from T1 to T2, in(X) at T2, in(Y) at T2, X \\= Y.";

const TANK: &str =
    "fluent level/1, open/0. event fill/1, unlock/0. timeless most(-). most(5). initially level(2).
unlock initiates open. fill(N) initiates level(M) if level(L), M is L + N. fill(N) terminates level(L) if level(L).
false fill(N) from T1 to T2, level(L) at T1, not open at T1, most(K), level(M) at T2, not open at T2, M > L + K.";

const LISTS: &str = "fluent p/1, q/1. event e/0. initially p(a), p(b), p(c), q(b). e initiates q(d).
false e from T1 to T2, p(X) at T1, q(X) at T2.";

const THREE: &str = "fluent p/0. event e/0, f/0. e initiates p.
false f from T1 to T2. false e from T1 to T2, p at T2. false e from T1 to T2.";

/// A text, the events that are tried in its initial state, the number that is answered, and the facts that are left.
const TRIED: [(&str, &str, Option<u32>, &str); 13] = [
    (ORDERS, "order(a)", None, ""),
    (ORDERS, "order(a), order(b)", Some(1), ""),
    (SALES, "sell(a)", Some(1), "stock(a, 0) stock(b, 1) "),
    (SALES, "sell(b)", None, "sold(b) stock(a, 0) stock(b, 1) "),
    (ROOM, "enter(a)", None, "in(a) "),
    (ROOM, "enter(b)", Some(1), "in(a) "),
    (ROOM, "enter(b), leave(a)", None, "in(b) "),
    (TANK, "fill(5)", None, "level(7) "),
    (TANK, "fill(6)", Some(1), "level(2) "),
    (TANK, "fill(6), unlock", None, "level(8) open "),
    (LISTS, "e", Some(1), "p(a) p(b) p(c) q(b) "),
    (THREE, "e", Some(2), ""),
    (THREE, "e, f", Some(1), ""),
];

fn check_tried(
    rt: &impl Abort,
    alloc: Global,
    text: &str,
    events: &str,
    number: Option<u32>,
    left: &str,
) -> Result<(), Fail> {
    let theory = theory_of(alloc, text)?;
    let facts = initial_facts(alloc, theory.text().text())?.sorted(alloc)?;
    let atoms = atoms_of(alloc, events)?;
    let (found, next) = tried_in(alloc, &theory, facts.as_slice(), atoms.as_slice())?;
    assert_eq!(rt; found, number, "{events}");
    let text = shown(alloc, next.as_slice())?;
    assert_eq!(rt; text.as_slice(), left.as_bytes(), "{events}");
    Ok(())
}

#[test]
fn events_that_are_tried(rt: HostRuntime) -> Result<(), Fail> {
    for (text, events, number, left) in TRIED {
        check_tried(&rt, rt.alloc(), text, events, number, left)?;
    }
    Ok(())
}

const LAMPS: &str =
    "fluent on/1, off/1. event press/1, cut/0. timeless next(+, -). next(a, b). next(b, a). initially on(a), off(b).
press(X) initiates on(Y) if on(X), next(X, Y). press(X) terminates on(X). press(X) initiates off(X) if not off(X).
cut terminates on(X) if on(X). cut terminates off(X) if off(X), X \\= b. cut initiates on(b) if on(b).";

/// Events in the initial state of `LAMPS`, what they initiate, and what they terminate and do not initiate.
const EFFECTS: [(&str, &str, &str); 5] = [
    ("press(a)", "off(a) on(b) ", "on(a) "),
    ("press(b)", "", "on(b) "),
    ("press(c)", "off(c) ", "on(c) "),
    ("cut", "", "on(a) "),
    ("press(a), press(b)", "off(a) on(b) ", "on(a) "),
];

fn check_effects(
    rt: &impl Abort,
    alloc: Global,
    events: &str,
    initiated: &str,
    terminated: &str,
) -> Result<(), Fail> {
    let program = program_of(alloc, LAMPS)?;
    let facts = initial_facts(alloc, program.text().text())?;
    let atoms = atoms_of(alloc, events)?;
    let found = effects_in(alloc, &program, &facts, atoms.as_slice())?;
    let text = shown(alloc, found.initiated.as_slice())?;
    assert_eq!(rt; text.as_slice(), initiated.as_bytes(), "{events}");
    let text = shown(alloc, found.terminated.as_slice())?;
    assert_eq!(rt; text.as_slice(), terminated.as_bytes(), "{events}");
    Ok(())
}

#[test]
fn effects_of_events(rt: HostRuntime) -> Result<(), Fail> {
    for (events, initiated, terminated) in EFFECTS {
        check_effects(&rt, rt.alloc(), events, initiated, terminated)?;
    }
    Ok(())
}
