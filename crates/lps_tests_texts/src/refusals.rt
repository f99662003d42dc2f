//! Bytes that are no text.
use crate::judge::check_table;
use std::test::Fail;

const REFUSALS: [(&str, &str); 27] = [
    ("fluent p/0", "text line 1: bad syntax"),
    ("fluent p/0.\np.\nq(", "text line 3: bad syntax"),
    ("p.\np(X\nif", "text line 3: bad syntax"),
    ("p.\np(X\n", "text line 2: bad syntax"),
    ("p :- q.", "text line 1: bad syntax"),
    ("p.\n(X) = 3.", "text line 2: bad syntax"),
    ("p if (X) = 3.", "text line 1: bad syntax"),
    ("p if f(a)\n< 3.", "text line 2: bad syntax"),
    ("p if 9223372036854775808 = X.", "text line 1: bad syntax"),
    ("fluent p/65.", "text line 1: bad syntax"),
    ("timeless p(*, *).", "text line 1: bad syntax"),
    ("p(9223372036854775808).", "text line 1: bad syntax"),
    (
        "if p at T then q at T,\nT =< T + 1000001.",
        "text line 2: bad syntax",
    ),
    (
        "if p at T then q at T,\nnot (X) < 3.",
        "text line 2: bad syntax",
    ),
    (
        "false a from T1 to T2,\nT1 < T2.",
        "text line 2: bad syntax",
    ),
    ("p ..", "text line 1: bad syntax"),
    ("P.", "text line 1: bad syntax"),
    ("p(if).", "text line 1: bad syntax"),
    ("p(T).", "text line 1: bad syntax"),
    ("p.\np ! q.", "text line 2: bad byte"),
    ("p if X\\Y.", "text line 1: bad byte"),
    ("p. % \u{e9}\n\n\u{e9}", "text line 3: bad byte"),
    (
        "initially p(9223372036854775809).",
        "text line 1: number too large",
    ),
    (
        "p(.\n\n99999999999999999999",
        "text line 3: number too large",
    ),
    (
        "p(.\n\na234567890123456789012345678901234567890123456789012345678901234X.",
        "text line 3: name too long",
    ),
    ("p(.\n?", "text line 2: bad byte"),
    ("p(.\n.", "text line 1: bad syntax"),
];

#[test]
fn refusals(rt: HostRuntime) -> Result<(), Fail> {
    check_table(&rt, rt.alloc(), "", REFUSALS.as_slice())
}
