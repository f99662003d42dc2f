//! Texts as large as a text may be, and larger by one. Of what is read no predicate is declared.
use crate::judge::said_of;
use crate::repeated::{Part, spelled};
use std::alloc::Global;
use std::process::Abort;
use std::test::Fail;

const READ: &str = "text line 1: undeclared p";

const LARGE: &str = "text line 1: term too large";

const MANY: &str = "text line 1: too many variables";

/// A line of 64 bytes.
const COMMENT: &str = "% 3456789 123456789 123456789 123456789 123456789 123456789 123\n";

/// Parts of texts, and what is said of the text.
const LIMITS: [(&[Part], &str); 18] = [
    (&[(COMMENT, 16384)], "accepted"),
    (&[(COMMENT, 16384), ("\n", 1)], "text too long"),
    (&[("p(a", 1), ("x", 63), (").", 1)], READ),
    (
        &[("p(a", 1), ("x", 64), (").", 1)],
        "text line 1: name too long",
    ),
    (&[("p(a", 1), (", a", 63), (").", 1)], READ),
    (
        &[("p(a", 1), (", a", 64), (").", 1)],
        "text line 1: bad syntax",
    ),
    (
        &[("initially p", 1), ("(f", 1023), (")", 1023), (".", 1)],
        READ,
    ),
    (&[("initially p", 1), ("(f", 1024), ("\n.", 1)], LARGE),
    (
        &[("p if f", 1), ("(f", 1023), (")", 1023), (" = X.", 1)],
        READ,
    ),
    (&[("p if f", 1), ("(f", 1024), ("\n.", 1)], LARGE),
    (&[("p if X is 3", 1), ("*3", 511), (".", 1)], READ),
    (&[("p if X is 3", 1), ("*3", 512), ("\n.", 1)], LARGE),
    (
        &[
            ("p if X is ", 1),
            ("(3*", 341),
            ("3", 1),
            (")", 341),
            (".", 1),
        ],
        READ,
    ),
    (&[("p if q(_)", 1), (", q(_)", 254), (".", 1)], READ),
    (&[("p if q(_)", 1), (", q(_)", 255), ("\n.", 1)], MANY),
    (&[("p if q(_)", 1), (", q(_)", 254), (".\nr(X).", 1)], READ),
    (&[("p if q(_)", 1), (", q(X)", 300), (".", 1)], READ),
    (
        &[("p from T to T if q(_)", 1), (", q(_)", 254), ("\n.", 1)],
        MANY,
    ),
];

/// Checks what is said of a text of these parts.
fn check(rt: &impl Abort, alloc: Global, parts: &[Part], want: &str) -> Result<(), Fail> {
    let bytes = spelled(alloc, parts)?;
    let said = said_of(alloc, bytes.as_slice())?;
    assert_eq!(rt; said.as_str(), want);
    Ok(())
}

#[test]
fn limits(rt: HostRuntime) -> Result<(), Fail> {
    for (parts, want) in LIMITS {
        check(&rt, rt.alloc(), parts, want)?;
    }
    Ok(())
}
