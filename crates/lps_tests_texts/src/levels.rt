//! Levels of clauses, or the least cycle of calls that forbids them.
use crate::judge::check_table;
use std::test::Fail;

const LEVELS: [(&str, &str); 7] = [
    ("p if not p.", "unlevelled p"),
    ("p.", "accepted"),
    ("q(X) if q(X).", "unlevelled q"),
    ("q(s(X)) if q(X).", "accepted"),
    ("q(X) if q(s(X)).", "unlevelled q"),
    (
        "m from T1 to T3 if x from T1 to T2, m from T2 to T3.",
        "accepted",
    ),
    (
        "m from T1 to T3 if m from T1 to T2, x from T2 to T3.",
        "unlevelled m",
    ),
];

#[test]
fn levels(rt: HostRuntime) -> Result<(), Fail> {
    let declared = "timeless p, q(*). macro m. action x/0.\n";
    check_table(&rt, rt.alloc(), declared, LEVELS.as_slice())
}

/// Of the shortest cycles the least by the names of their members.
const CYCLES: [(&str, &str); 5] = [
    ("a if not b, c. b if not c.", "accepted"),
    (
        "a if not b. b if d, c. c if a. d if a.",
        "unlevelled a, b, c",
    ),
    (
        "a if not b. b if c, d. c if e. e if a. d if a.",
        "unlevelled a, b, d",
    ),
    ("a if not c. b if not b. c if not c.", "unlevelled b"),
    ("a if b. b if a.", "unlevelled a, b"),
];

#[test]
fn least_cycles(rt: HostRuntime) -> Result<(), Fail> {
    let declared = "timeless a, b, c, d, e.\n";
    check_table(&rt, rt.alloc(), declared, CYCLES.as_slice())
}
