//! Each reason for which a text is not accepted, and which counts of two.
use crate::judge::check_said;
use std::alloc::Global;
use std::process::Abort;
use std::test::Fail;

/// What each name below is declared as.
const DECLARED: &str = "fluent p/0, q/1. event e/0. action a/0. derived d, g(-). macro m.\n";

/// Statements below `DECLARED` in the order of the reasons for which they are refused.
const REASONS: [(&str, &str); 11] = [
    ("initially x.\n", "undeclared x"),
    ("fluent y/0, y/1.\n", "declared twice y"),
    ("initially p(a).\n", "wrong arity p"),
    ("initially e.\n", "wrong kind e"),
    ("initially q(X).\n", "not ground"),
    ("false p at T.\n", "no event"),
    ("if e from T1 to T2 then p at T1.\n", "out of order"),
    (
        "if p at T then e from T1 to T2, a from T1 to T2.\n",
        "mixed group",
    ),
    ("m from T1 to T3 if a from T1 to T2.\n", "bad head times"),
    ("g(X) if p.\n", "unknown X"),
    ("d if not d.\n", "unlevelled d"),
];

/// What is said below `DECLARED` for a reason that stands in a line, or in none.
fn check_reason(
    rt: &impl Abort,
    alloc: Global,
    statements: &str,
    line: u32,
    reason: &str,
) -> Result<(), Fail> {
    if reason == "unlevelled d" {
        return check_said(rt, alloc, DECLARED, statements, reason);
    }
    let want = format!(in alloc; "text line {line}: {reason}")?;
    check_said(rt, alloc, DECLARED, statements, want.as_str())
}

#[test]
fn single_reasons(rt: HostRuntime) -> Result<(), Fail> {
    for (statement, reason) in REASONS {
        check_reason(&rt, rt.alloc(), statement, 2, reason)?;
    }
    Ok(())
}

/// The earlier reason counts, also where it stands in a later line.
#[test]
fn two_reasons(rt: HostRuntime) -> Result<(), Fail> {
    for ((least, reason), (later, _)) in REASONS.iter().zip(&REASONS[1..]) {
        let statements = format!(in rt.alloc(); "{later}{least}")?;
        check_reason(&rt, rt.alloc(), statements.as_str(), 3, reason)?;
    }
    Ok(())
}
