//! What `check` prints of a text. The stream is left alone: each read of it would fail.
use crate::call::{Call, PLAIN, check_check};
use std::test::Fail;

const UNREAD: Call<'static> = Call {
    read_fails: &[1],
    ..PLAIN
};

/// Texts, exit codes, answers, and what is printed.
const CHECKS: [(&str, u8, &str, &str); 4] = [
    (
        "fluent  p/0 ,q/1.initially q( -7 ),p.",
        0,
        "checked",
        "fluent p/0, q/1.\ninitially q(-7), p.\n",
    ),
    (
        "action a/0. fluent p/0. if p at T then a from T to T1.",
        0,
        "checked",
        "action a/0.\nfluent p/0.\nif p at T then a from T to T1.\n",
    ),
    ("p.\nq(", 3, "text line 2: bad syntax", ""),
    (
        "fluent p/0.\ninitially q.",
        3,
        "text line 2: undeclared q",
        "",
    ),
];

#[test]
fn checks(rt: HostRuntime) -> Result<(), Fail> {
    for (text, code, line, printed) in CHECKS {
        let call = Call {
            text,
            code,
            line,
            printed,
            ..UNREAD
        };
        check_check(&rt, rt.alloc(), &call)?;
    }
    Ok(())
}

#[test]
fn failing_print(rt: HostRuntime) -> Result<(), Fail> {
    let call = Call {
        text: "fluent p/0.\ninitially p.\n",
        print_fails: &[1],
        code: 7,
        line: "print fault",
        printed: "fluent p/0.\n",
        ..UNREAD
    };
    check_check(&rt, rt.alloc(), &call)
}
