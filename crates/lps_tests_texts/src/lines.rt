//! Lines of a stream as long as a line may be, and longer by one.
use crate::repeated::{Part, spelled};
use lps_batches::read_line;
use std::alloc::Global;
use std::process::Abort;
use std::test::Fail;

const FINE: &str = "batch";

const BAD: &str = "bad line";

/// Parts of lines, and what is said of the line.
const LINES: [(&[Part], &str); 16] = [
    (&[("3: b(1), a(c, -2).", 1)], FINE),
    (&[("1: e", 1), (", e", 999), (".", 1)], FINE),
    (&[("1: e", 1), (", e", 1000), (".", 1)], "too many events"),
    (&[("1: e", 1), (", e", 1000), ("?", 1)], "too many events"),
    (&[("1: e", 1), (", e", 999), (", 1.", 1)], BAD),
    (&[("1: e", 1), (", e", 999), ("?", 1)], BAD),
    (
        &[("1: ", 1), ("f(", 1023), ("a", 1), (")", 1023), (".", 1)],
        FINE,
    ),
    (&[("1: ", 1), ("f(", 1023), ("a, b", 1)], "term too large"),
    (&[("1: ", 1), ("f(", 1023), ("a, -", 1)], "term too large"),
    (&[("1: ", 1), ("f(", 1023), ("a, X", 1)], BAD),
    (
        &[
            ("1: ", 1),
            ("f(", 1022),
            ("a, -1", 1),
            (")", 1022),
            (".", 1),
        ],
        FINE,
    ),
    (&[("1: e(a", 1), (", a", 63), (").", 1)], FINE),
    (&[("1: e(a", 1), (", a", 64), (").", 1)], BAD),
    (&[("1: e", 1), ("x", 63), (".", 1)], FINE),
    (&[("1: e", 1), ("x", 64), (".", 1)], BAD),
    (&[("%", 65537)], "line too long"),
];

/// Checks what is said of a line of these parts.
fn check(rt: &impl Abort, alloc: Global, parts: &[Part], want: &str) -> Result<(), Fail> {
    let line = spelled(alloc, parts)?;
    let said = match read_line(alloc, line.as_slice())? {
        Ok(_) => String::from_str(alloc, FINE)?,
        Err(kind) => format!(in alloc; "{kind}")?,
    };
    assert_eq!(rt; said.as_str(), want);
    Ok(())
}

#[test]
fn lines(rt: HostRuntime) -> Result<(), Fail> {
    for (parts, want) in LINES {
        check(&rt, rt.alloc(), parts, want)?;
    }
    Ok(())
}
