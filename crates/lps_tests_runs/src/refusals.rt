//! Texts that are not run, and streams with a line that is refused.
use crate::call::{Call, PLAIN, check_run};
use std::test::Fail;

const SWITCH: &str = "fluent p/0.\nevent e/0.\nevent g/0.\ne initiates p.\ng terminates p.\n";

/// Streams whose first line is the batch of cycle 1, and what is said of the first faulty line.
const LINES: [(&str, &str); 6] = [
    ("1: .\n2: p.\n", "batch line 2: not external"),
    ("1: .\n2: x.\n3: .\n", "batch line 2: undeclared"),
    ("1: .\n2: e, e(a), x.", "batch line 2: wrong arity"),
    ("1: .\n2: e", "batch line 2: bad line"),
    ("1: .\n\n% two\n 3: e.", "batch line 4: expected 2, got 3"),
    ("1: .\n2: e ! .\n", "batch line 2: bad line"),
];

#[test]
fn refused_lines(rt: HostRuntime) -> Result<(), Fail> {
    for (stream, line) in LINES {
        let call = Call {
            text: SWITCH,
            stream,
            code: 4,
            line,
            printed: "cycle 0\nstate\ncycle 1\nstate\n",
            ..PLAIN
        };
        check_run(&rt, rt.alloc(), &call)?;
    }
    Ok(())
}

/// Texts that are not read, not accepted, or not run so far, and why.
const TEXTS: [(&str, &str); 8] = [
    ("fluent p/0", "text line 1: bad syntax"),
    ("initially q.\np ! q.\n", "text line 2: bad byte"),
    (
        "initially p(9223372036854775809).",
        "text line 1: number too large",
    ),
    (
        "action a/0. macro m.\nm from T1 to T2 if a from T1 to T2.\ninitially e.\n",
        "text line 3: undeclared e",
    ),
    ("derived d.\nd if not d.\n", "unlevelled d"),
    (
        "fluent q/0. action a/0. macro m.\nif q at T then a from T to T1.\n\
            if q at T then a from T to T1 or m from T to T1.\n",
        "text line 3: not built",
    ),
    (
        "event e/0. action a/0. macro m.\nif e from T to T1 then a from T1 to T2, m from T2 to T3.\n\
            m from T1 to T2 if a from T1 to T2.\n",
        "text line 2: not built",
    ),
    (
        "action a/0. macro m.\n\nm from T1 to T2 if a from T1 to T2.\n",
        "text line 3: not built",
    ),
];

#[test]
fn refused_texts(rt: HostRuntime) -> Result<(), Fail> {
    for (text, line) in TEXTS {
        let call = Call {
            text,
            code: 3,
            line,
            printed: "",
            ..PLAIN
        };
        check_run(&rt, rt.alloc(), &call)?;
    }
    Ok(())
}
