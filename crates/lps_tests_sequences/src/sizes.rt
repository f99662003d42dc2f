//! How many symbols things have, and which limit they exceed first.
use lps_facts::Facts;
use lps_limits::{Limit, MOST_KEPT, Sizes, first_exceeded, state_symbols};
use lps_meaning::{Carry, GoalKey, Left, LeftCon, LeftItem, Node, When};
use lps_model::{Group, Pick};
use lps_sizes::{atoms_symbols, cycle_symbols, goal_symbols, node_symbols};
use lps_terms::{Cond, Lit, Term, TimeRel};
use lps_tests_written::{atom_of, atoms_of, conditions_of, terms_of};
use sqlite_items::Items;
use std::alloc::Global;
use std::process::Abort;
use std::test::Fail;

/// An item that is left of the text's own sequence.
fn left_of(item: LeftItem) -> Left {
    Left { item, nest: 0 }
}

/// An event or an action that is left, at times that are not known.
fn span(alloc: Global, atom: &str) -> Result<Left, Fail> {
    let atom = atom_of(alloc, atom)?;
    Ok(left_of(LeftItem::Span(atom, When::Unknown(0), When::Unknown(1))))
}

fn spans(alloc: Global, atoms: &[&str]) -> Result<Items<Left>, Fail> {
    let mut rest = Items::new(alloc);
    for atom in atoms {
        rest.push(span(alloc, atom)?)?;
    }
    Ok(rest)
}

/// A node that carries these values, and has these items left.
fn node_of(alloc: Global, values: Items<Term>, rest: Items<Left>) -> Node {
    let times = Items::new(alloc);
    Node {
        alternative: 0,
        rank: Items::new(alloc),
        done: 0,
        carry: Carry { values, times },
        rest,
        limits: Items::new(alloc),
    }
}

/// What waits for these events, and carries these terms.
fn waiting(alloc: Global, carried: &str, events: &[&str]) -> Result<Node, Fail> {
    let values = terms_of(alloc, carried)?;
    let rest = spans(alloc, events)?;
    Ok(node_of(alloc, values, rest))
}

/// Of a rule with two events and one variable, what waits at first, and what waits once the first event was there.
const WAITING: [(&str, &[&str], u64); 2] = [("X", &["e1(X)", "e2(X)"], 10), ("k", &["e2(k)"], 6)];

#[test]
fn nodes_that_wait(rt: HostRuntime) -> Result<(), Fail> {
    for (carried, events, count) in WAITING {
        let node = waiting(rt.alloc(), carried, events)?;
        assert_eq!(rt; node_symbols(&node), count, "{carried}");
    }
    Ok(())
}

/// A goal of this rule counts itself and its value, and the action that is left to do.
#[test]
fn goals(rt: HostRuntime) -> Result<(), Fail> {
    let alloc = rt.alloc();
    let key = GoalKey {
        rule: 1,
        values: terms_of(alloc, "k")?,
        times: Items::new(alloc),
        time: 1002,
    };
    let rest = spans(alloc, ["a(k)"].as_slice())?;
    let nodes = [node_of(alloc, Items::new(alloc), rest)];
    assert_eq!(rt; goal_symbols(&key, &[]), 2, "the goal");
    assert_eq!(rt; goal_symbols(&key, nodes.as_slice()), 7, "with its node");
    Ok(())
}

/// An item that is left, as a condition without times writes it.
fn condition(alloc: Global, written: &str) -> Result<Left, Fail> {
    match conditions_of(alloc, written)?.pop() {
        Some(Cond::Lit(lit)) => Ok(left_of(LeftItem::Bare(lit))),
        Some(Cond::Built(built)) => Ok(left_of(LeftItem::Built(built))),
        None => Err(Fail::from("no condition")),
    }
}

/// What is left of conditions without times, what it counts in a node that carries nothing.
const CONDITIONS: [(&str, u64); 6] = [
    ("p", 2),
    ("not p(X, s(s(z)))", 6),
    ("X = f(Y)", 5),
    ("X \\= k", 4),
    ("X is Y + 2 * Z", 8),
    ("X - 1 < Y", 6),
];

fn check_condition(rt: &impl Abort, alloc: Global, written: &str, count: u64) -> Result<(), Fail> {
    let mut rest = Items::new(alloc);
    rest.push(condition(alloc, written)?)?;
    let node = node_of(alloc, Items::new(alloc), rest);
    assert_eq!(rt; node_symbols(&node), count, "{written}");
    Ok(())
}

#[test]
fn conditions_that_are_left(rt: HostRuntime) -> Result<(), Fail> {
    for (written, count) in CONDITIONS {
        check_condition(&rt, rt.alloc(), written, count)?;
    }
    Ok(())
}

fn only<T: Drop>(alloc: Global, item: T) -> Result<Items<T>, Fail> {
    let mut items = Items::new(alloc);
    items.push(item)?;
    Ok(items)
}

fn not_at(alloc: Global, atom: &str) -> Result<Left, Fail> {
    let atom = atom_of(alloc, atom)?;
    let negated = true;
    let lit = Lit { negated, atom };
    Ok(left_of(LeftItem::At(lit, When::Unknown(0))))
}

const LIMIT: LeftCon = LeftCon {
    left: When::Unknown(0),
    rel: TimeRel::AtMost,
    right: When::Known(3),
    plus: 2,
};

/// One for the node, one for a chosen clause, one each for a value and a time that it carries, three for a fluent of two symbols at a time,
/// and three for a constraint.
#[test]
fn a_node_with_all(rt: HostRuntime) -> Result<(), Fail> {
    let alloc = rt.alloc();
    let rank = only(alloc, 2)?;
    let times = only(alloc, When::Known(3))?;
    let limits = only(alloc, LIMIT)?;
    let rest = only(alloc, not_at(alloc, "p(k)")?)?;
    let values = terms_of(alloc, "k")?;
    let node = Node {
        alternative: 1,
        rank,
        done: 0,
        carry: Carry { values, times },
        rest,
        limits,
    };
    assert_eq!(rt; node_symbols(&node), 10, "all");
    Ok(())
}

/// Facts, and their symbols; a fact that is put in twice counts once.
const STATES: [(&str, u64); 4] = [
    ("", 0),
    ("p", 1),
    ("p(a), q", 3),
    ("p(s(s(z))), p(1, -2), p(1, -2)", 7),
];

fn check_state(rt: &impl Abort, alloc: Global, facts: &str, count: u64) -> Result<(), Fail> {
    let mut state = Facts::new(alloc);
    state.insert_all(atoms_of(alloc, facts)?.as_slice())?;
    assert_eq!(rt; state_symbols(alloc, &state)?, count, "{facts}");
    Ok(())
}

#[test]
fn states(rt: HostRuntime) -> Result<(), Fail> {
    for (facts, count) in STATES {
        check_state(&rt, rt.alloc(), facts, count)?;
    }
    Ok(())
}

/// A cycle counts one, an event two whether it is admitted or rejected, and a pick one more than its group.
#[test]
fn cycles(rt: HostRuntime) -> Result<(), Fail> {
    let alloc = rt.alloc();
    assert_eq!(rt; cycle_symbols(&[], &[]), 1, "nothing happens");
    let atoms = atoms_of(alloc, "a(k), b")?;
    let group = Group { atoms };
    let picks = [Pick { goal: 1, group }];
    let events = atoms_of(alloc, "e1(k), e2(k)")?;
    let events = events.as_slice();
    assert_eq!(rt; atoms_symbols(events), 4, "the events");
    assert_eq!(rt; cycle_symbols(events, picks.as_slice()), 9, "all");
    Ok(())
}

/// The symbols of a state, of what is kept and of a log, how many may be kept, and the limit that is exceeded first.
const EXCEEDED: [(u64, u64, u64, u64, Option<(Limit, u64)>); 7] = [
    (0, 0, 0, 1, None),
    (4000000, 23, 16000000, 23, None),
    (0, 23, 0, 22, Some((Limit::Kept, 23))),
    (4000001, 0, 0, 1, Some((Limit::State, 4000001))),
    (0, 0, 16000001, 1, Some((Limit::Log, 16000001))),
    (5000000, 3, 17000000, 2, Some((Limit::State, 5000000))),
    (0, 3, 17000000, 2, Some((Limit::Kept, 3))),
];

#[test]
fn limits(rt: HostRuntime) -> Result<(), Fail> {
    for (state, kept, log, keep, want) in EXCEEDED {
        let sizes = Sizes { state, kept, log };
        if keep > MOST_KEPT {
            return Err(Fail::from("too many symbols to keep"));
        }
        assert_eq!(rt; first_exceeded(&sizes, keep), want, "{state} {kept} {log}");
    }
    Ok(())
}
