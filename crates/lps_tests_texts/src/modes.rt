//! Variables and times that are known where they have to be, or the leftmost that is not.
use crate::judge::check_table;
use std::test::Fail;

/// The statement of a row stands on line 2.
const DECLARED: &str = "fluent s/1. event e/1. action a/1. derived r(-, +). macro m(*, -).\n";

const KNOWN: [(&str, &str); 10] = [
    ("false a(X) from T1 to T2, not s(X) at T1.", "accepted"),
    (
        "if e(X) from T0 to T1, a(Y) from T1 to T2, T0 < T2 then a(X) from T3 to T4, T2 < T4.",
        "accepted",
    ),
    ("e(X) initiates s(Y) if Y is X + 1.", "accepted"),
    (
        "e(X) initiates s(X) if s(Y), r(Z, X), Z \\= X, Y < X.",
        "accepted",
    ),
    ("r(X, Y) if X = Y.", "accepted"),
    ("r(X, Y) if 7 = X.", "accepted"),
    ("r(X, Y) if s(X).", "accepted"),
    (
        "m(X, Y) from T1 to T3 if a(X) from T1 to T2, m(X, Y) from T2 to T3.",
        "accepted",
    ),
    ("m(X, Y) from T1 to T1 if s(Y) at T1.", "accepted"),
    ("r(Y, Y).", "accepted"),
];

#[test]
fn known_everywhere(rt: HostRuntime) -> Result<(), Fail> {
    check_table(&rt, rt.alloc(), DECLARED, KNOWN.as_slice())
}

const UNKNOWN: [(&str, &str); 18] = [
    ("r(X, 7) if not s(X).", "text line 2: unknown X"),
    ("r(X, Y).", "text line 2: unknown X"),
    ("r(X, Y) if X = Z.", "text line 2: unknown X"),
    ("r(X, Y) if X is Z + 1.", "text line 2: unknown Z"),
    ("r(X, Y) if Y \\= X.", "text line 2: unknown X"),
    ("r(X, Y) if Z < Y + X.", "text line 2: unknown Z"),
    ("r(X, Y) if r(X, Z).", "text line 2: unknown Z"),
    ("e(X) initiates s(Y) if X = X.", "text line 2: unknown Y"),
    (
        "e(X) initiates s(X) if X is Y + 1.",
        "text line 2: unknown Y",
    ),
    (
        "false not s(X) at T0, e(X) from T0 to T1.",
        "text line 2: unknown X",
    ),
    (
        "if e(X) from T0 to T1 then a(Y) from T2 to T3.",
        "text line 2: unknown Y",
    ),
    (
        "if e(X) from T0 to T1 then m(Y, X) from T2 to T3.",
        "text line 2: unknown Y",
    ),
    (
        "if e(X) from T0 to T1, T0 < T3 then a(X) from T2 to T4.",
        "text line 2: unknown T3",
    ),
    (
        "if e(X) from T0 to T1 then a(X) from T2 to T3, T4 < T3.",
        "text line 2: unknown T4",
    ),
    (
        "m(X, Y) from T0 to T1 if a(Y) from T0 to T1.",
        "text line 2: unknown Y",
    ),
    (
        "m(X, Y) from T0 to T1 if a(X) from T0 to T1.",
        "text line 2: unknown Y",
    ),
    ("r(Y, Y).\nr(X, Y).", "text line 3: unknown X"),
    ("e(X) initiates s(Z).\nr(X, Y).", "text line 2: unknown Z"),
];

#[test]
fn first_unknown(rt: HostRuntime) -> Result<(), Fail> {
    check_table(&rt, rt.alloc(), DECLARED, UNKNOWN.as_slice())
}
