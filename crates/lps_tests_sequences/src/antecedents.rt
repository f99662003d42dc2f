//! What waits for the antecedents of rules over a few cycles, and the keys of the goals that they create.
ghost use Rattle.std.specs.Prelude.{Contains, IfOk, IsTrue};
ghost use Rattle.std.specs.List.{AllByRecursion};
ghost use Rattle.lps_terms.specs.declared.atom.Atom.{Atom as Fact};
ghost use Rattle.lps_facts.specs.Facts.{members};
ghost use Rattle.lps_solve.specs.Met.{AreGround};
ghost use Rattle.lps_antecedents.specs.Waiting.{IsReadyWaiting};

use lps_antecedents::Waiting;
use lps_facts::Facts;
use lps_meaning::GoalKey;
use lps_solve::{Program, are_ground};
use lps_terms::{Atom, print_term};
use lps_tests_written::{accepted_of, atoms_of};
use lps_unify::Bindings;
use sqlite_items::Items;
use std::alloc::Global;
use std::process::Abort;
use std::test::Fail;

/// The facts of a state, the events of the cycle that ends with it, how many nodes wait then, and the keys.
type Cycle = (&'static str, &'static str, usize, &'static str);

const AGAIN: &str = "event e1/1, e2/1. action act/1.
if e1(X) from T1 to T2, e2(X) from T3 to T4 then act(X) from T5 to T6.";

/// An event that was met once is met again by a later one.
const MET_AGAIN: [Cycle; 5] = [
    ("", "", 1, ""),
    ("", "e1(k)", 2, ""),
    ("", "", 2, ""),
    ("", "e1(j), e2(k)", 3, "1@3 k;"),
    ("", "e2(j), e2(k)", 3, "1@4 j;1@4 k;"),
];

const GROUP: &str = "event e1/1, e2/1. action act/1.
if e1(X) from T1 to T2, e2(X) from T1 to T2 then act(X) from T5 to T6, T2 =< T5.";

/// Two events of a group are met in one cycle.
const MET_TOGETHER: [Cycle; 4] = [
    ("", "", 1, ""),
    ("", "e1(k)", 1, ""),
    ("", "e2(k)", 1, ""),
    ("", "e1(j), e2(k), e2(j), e1(k)", 1, "1@3 j 3;1@3 k 3;"),
];

const STATES: &str = "event e/1. fluent p/1, q/2. action act/1. timeless big(+). big(X) if X > 2.
if e(X) from T1 to T2, p(Y) at T2, Y > X, big(Y), q(X, Z) at T3, T3 < T2 + 3 then act(Z) from T5 to T6.";

/// Conditions on states, a built-in and a timeless predicate in the middle, and a deadline.
const MET_IN_STATES: [Cycle; 5] = [
    ("", "", 1, ""),
    (
        "p(1), p(2), p(3), p(4), q(1, a)",
        "e(1), e(3), e(5)",
        3,
        "1@1 a;",
    ),
    ("q(1, b), q(3, c)", "", 3, "1@2 b;1@2 c;"),
    ("q(1, d)", "", 1, "1@3 d;"),
    ("q(1, b)", "", 1, ""),
];

const AT_START: &str = "fluent p/1. action act/1. event f/0.
if p(X) at T1, not p(b) at T1, f from T2 to T3, T3 =< T1 + 2 then act(X) from T5 to T6.";

/// What begins at the start, a negation, and a deadline for an event: in its last cycle, and in the one behind it.
const MET_BY_DEADLINE: [Cycle; 5] = [
    ("p(a), p(c)", "", 3, ""),
    ("p(a)", "f", 4, "1@1 a;1@1 c;"),
    ("p(b)", "f", 2, "1@2 a;1@2 c;"),
    ("", "f", 1, "1@3 a;"),
    ("", "f", 1, ""),
];

const TWO: &str = "fluent p/1. event e/1, f/0. action a/0, b/1.
if e(X) from T1 to T2, f from T3 to T4 then a from T5 to T6. if p(X) at T1 then b(X) from T2 to T3. if e(X) from T1 to T2 then b(X) from T3 to T4.";

/// An antecedent that ends at time 0, one event that meets two rules, and one key of two instances.
const MET_TWICE: [Cycle; 3] = [
    ("p(c)", "", 3, "2@0 c;"),
    ("", "e(k), e(j)", 4, "3@1 j;3@1 k;"),
    ("p(a)", "f", 4, "1@2;2@2 a;"),
];

fn program_of(alloc: Global, text: &str) -> Result<Box<Program>, Fail> {
    let text = accepted_of(alloc, text)?;
    Ok(Box::new(alloc, Program::new(alloc, text)?)?)
}

fn all_ground(atoms: &[Atom]) -> bool
    ensures { IsTrue result → AllByRecursion (λ a. AreGround a.args) atoms.now }
{
    for atom in atoms {
        if !are_ground(atom.args.as_slice()) {
            return false;
        }
    }
    true
}

fn ground_atoms(alloc: Global, list: &str) -> Result<Items<Atom>, Fail>
    ensures { IfOk result (λ atoms. (a : Fact) → Contains atoms a → AreGround a.args) }
{
    let atoms = atoms_of(alloc, list)?;
    if all_ground(atoms.as_slice()) {
        Ok(atoms)
    } else {
        Err(Fail::from("not ground"))
    }
}

fn ground_facts(alloc: Global, list: &str) -> Result<Facts, Fail>
    ensures { IfOk result (λ facts. (a : Fact) → Contains (members facts) a → AreGround a.args) }
{
    let mut facts = Facts::new(alloc);
    facts.insert_all(atoms_of(alloc, list)?.as_slice())?;
    let sorted = facts.sorted(alloc)?;
    if all_ground(sorted.as_slice()) {
        Ok(facts)
    } else {
        Err(Fail::from("not ground"))
    }
}

/// What waits in a state, and the keys of the antecedents that are true in it.
fn started(alloc: Global, program: &Program, facts: &str) -> Result<(Waiting, Vec<GoalKey>), Fail>
    ensures { IfOk result (λ started. IsReadyWaiting program.now started.0) }
{
    let facts = ground_facts(alloc, facts)?;
    let mut bindings = Bindings::new(alloc, 0)?;
    Ok(Waiting::start(alloc, program, &facts, &mut bindings)?)
}

/// What waits is carried over a cycle.
fn advance(
    alloc: Global,
    program: &Program,
    waiting: &mut Waiting,
    time: u64,
    facts: &str,
    events: &str,
) -> Result<Vec<GoalKey>, Fail>
    requires { IsReadyWaiting program.now waiting.old }
    ensures { IsReadyWaiting program.now waiting.new }
{
    if time < 1 || time > 1000000 {
        return Err(Fail::from("no time"));
    }
    let facts = ground_facts(alloc, facts)?;
    let events = ground_atoms(alloc, events)?;
    let mut bindings = Bindings::new(alloc, 0)?;
    let keys = waiting.advance(
        alloc,
        program,
        time,
        &facts,
        events.as_slice(),
        &mut bindings,
    )?;
    Ok(keys)
}

/// The rule and the time of each key, and then its values and times.
fn told(alloc: Global, keys: &[GoalKey]) -> Result<Vec<u8>, Fail> {
    let mut text = Vec::new(alloc);
    for key in keys {
        text.extend_from_slice(format!(in alloc; "{}@{}", key.rule, key.time)?.as_bytes())?;
        for value in key.values.as_slice() {
            text.push(b' ')?;
            print_term(value, &mut text)?;
        }
        for time in key.times.as_slice() {
            text.extend_from_slice(format!(in alloc; " {}", time)?.as_bytes())?;
        }
        text.push(b';')?;
    }
    Ok(text)
}

fn check(
    rt: &impl Abort,
    alloc: Global,
    waiting: &Waiting,
    keys: &[GoalKey],
    count: usize,
    text: &str,
) -> Result<(), Fail> {
    assert_eq!(rt; waiting.held(alloc)?.len(), count, "what waits");
    let keys = told(alloc, keys)?;
    assert_eq!(rt; keys.as_slice(), text.as_bytes(), "keys");
    Ok(())
}

/// What waits, carried over cycles that are numbered from 1.
fn check_later(
    rt: &impl Abort,
    alloc: Global,
    program: &Program,
    waiting: &mut Waiting,
    later: &[Cycle],
) -> Result<(), Fail>
    requires { IsReadyWaiting program.now waiting.old }
{
    let mut time = 0u64;
    for (facts, events, count, keys) in later {
        time = time.checked_add(1).ok_or("no time")?;
        let found = advance(alloc, program, waiting, time, facts, events)?;
        check(rt, alloc, waiting, found.as_slice(), *count, keys)?;
    }
    Ok(())
}

fn check_cycles(rt: &impl Abort, alloc: Global, text: &str, cycles: &[Cycle]) -> Result<(), Fail> {
    let program = program_of(alloc, text)?;
    let (first, later) = cycles.split_first().ok_or("no state")?;
    let (facts, _, count, keys) = first;
    let (waiting, found) = started(alloc, &program, facts)?;
    let mut waiting = Box::new(alloc, waiting)?;
    check(rt, alloc, &waiting, found.as_slice(), *count, keys)?;
    check_later(rt, alloc, &program, &mut waiting, later)
}

#[test]
fn antecedents_over_cycles(rt: HostRuntime) -> Result<(), Fail> {
    check_cycles(&rt, rt.alloc(), AGAIN, &MET_AGAIN)?;
    check_cycles(&rt, rt.alloc(), GROUP, &MET_TOGETHER)?;
    check_cycles(&rt, rt.alloc(), STATES, &MET_IN_STATES)?;
    check_cycles(&rt, rt.alloc(), AT_START, &MET_BY_DEADLINE)?;
    check_cycles(&rt, rt.alloc(), TWO, &MET_TWICE)
}

/// A cycle that is taken back: what waited before it.
#[test]
fn a_cycle_is_taken_back(rt: HostRuntime) -> Result<(), Fail> {
    let alloc = rt.alloc();
    let program = program_of(alloc, AGAIN)?;
    let (waiting, _) = started(alloc, &program, "")?;
    let mut waiting = Box::new(alloc, waiting)?;
    let found = advance(alloc, &program, &mut waiting, 1, "", "e1(k)")?;
    check(&rt, alloc, &waiting, found.as_slice(), 2, "")?;
    waiting.undo();
    check(&rt, alloc, &waiting, &[], 1, "")
}
