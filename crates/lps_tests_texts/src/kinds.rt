//! Names, numbers of arguments, kinds, facts of the start, and denials without an event.
use crate::judge::{check_said, check_table};
use std::test::Fail;

/// Seven lines, below which the statement of a row stands.
const DECLARED: &str =
    "fluent p/0.\nevent e/0.\naction a/0.\ntimeless t, u.\nderived d.\nmacro m, n.\nfluent q/1.\n";

/// Each place of a name with each kind that may stand there.
const ALLOWED: &str = "initially p, q(1).
e initiates p if p, d, t.
a terminates p.
false e from T1 to T2, a from T1 to T2, d at T1, t.
if p at T1, e from T1 to T2, a from T1 to T2, t
    then e from T3 to T4, a from T4 to T5, m from T5 to T6, d at T6.
t if u.
d if p, t.
m from T1 to T3 if a from T1 to T2, n from T2 to T3, t.
";

#[test]
fn allowed_places(rt: HostRuntime) -> Result<(), Fail> {
    check_said(&rt, rt.alloc(), DECLARED, ALLOWED, "accepted")
}

const REFUSALS: [(&str, &str); 22] = [
    ("initially d.", "text line 8: wrong kind d"),
    ("p initiates p.", "text line 8: wrong kind p"),
    ("e initiates a.", "text line 8: wrong kind a"),
    ("e terminates p if p, m.", "text line 8: wrong kind m"),
    ("false m from T1 to T2.", "text line 8: wrong kind m"),
    (
        "if m from T1 to T2 then a from T3 to T4.",
        "text line 8: wrong kind m",
    ),
    (
        "if p at T1 then d from T1 to T2.",
        "text line 8: wrong kind d",
    ),
    (
        "if t at T1 then a from T1 to T2.",
        "text line 8: wrong kind t",
    ),
    ("if p then a from T1 to T2.", "text line 8: wrong kind p"),
    ("p.", "text line 8: wrong kind p"),
    ("t if t, d.", "text line 8: wrong kind d"),
    ("d if e.", "text line 8: wrong kind e"),
    (
        "d from T1 to T2 if a from T1 to T2.",
        "text line 8: wrong kind d",
    ),
    (
        "m from T1 to T2 if t from T1 to T2.",
        "text line 8: wrong kind t",
    ),
    ("z initiates y if x.", "text line 8: undeclared z"),
    ("p initiates e if x.", "text line 8: undeclared x"),
    ("macro p.", "text line 8: declared twice p"),
    ("initially p(1).", "text line 8: wrong arity p"),
    ("initially p(X).", "text line 8: wrong arity p"),
    ("initially q(X).", "text line 8: not ground"),
    ("false t.", "text line 8: no event"),
    ("false p at T.", "text line 8: no event"),
];

#[test]
fn refusals_by_kind(rt: HostRuntime) -> Result<(), Fail> {
    check_table(&rt, rt.alloc(), DECLARED, REFUSALS.as_slice())
}
