//! The values of expressions, and whether built-ins are true.
use lps_terms::{Built, Cond};
use lps_tests_written::conditions_of;
use lps_values::{holds, value};
use std::alloc::Global;
use std::process::Abort;
use std::test::Fail;

/// The built-in that a text writes.
fn built_of(alloc: Global, text: &str) -> Result<Built, Fail> {
    match conditions_of(alloc, text)?.pop() {
        Some(Cond::Built(built)) => Ok(built),
        _ => Err(Fail::from("no built-in")),
    }
}

/// Expressions and their values.
const VALUES: [(&str, Option<i64>); 26] = [
    ("7 div 2", Some(3)),
    ("7 mod 2", Some(1)),
    ("7 div -2", Some(-4)),
    ("7 mod -2", Some(-1)),
    ("-7 div 2", Some(-4)),
    ("-7 mod 2", Some(1)),
    ("-7 div -2", Some(3)),
    ("-7 mod -2", Some(-1)),
    ("8 div -2", Some(-4)),
    ("8 mod -2", Some(0)),
    ("1 div 0", None),
    ("1 mod 0", None),
    ("-9223372036854775808 div -1", None),
    ("-9223372036854775808 mod -1", Some(0)),
    ("-9223372036854775808 div 1", Some(i64::MIN)),
    ("9223372036854775807 div -9223372036854775808", Some(-1)),
    ("9223372036854775807 mod -9223372036854775808", Some(-1)),
    ("9223372036854775807 + 1", None),
    ("9223372036854775807 + 1 - 1", None),
    ("-9223372036854775808 - 1", None),
    ("0 - -9223372036854775808", None),
    ("-9223372036854775808 * -1", None),
    ("4294967296 * -2147483648", Some(i64::MIN)),
    ("2 + 3 * 4 - 10 div 3 mod 2", Some(13)),
    ("(2 + 3) * (4 - 10)", Some(-30)),
    ("X", None),
];

fn check_value(rt: &impl Abort, alloc: Global, text: &str, want: Option<i64>) -> Result<(), Fail> {
    let is = format!(in alloc; "Y is {text}")?;
    let Built::Is(_, expr) = built_of(alloc, is.as_str())? else {
        return Err(Fail::from("no expression"));
    };
    assert_eq!(rt; value(&expr), want, "{text}");
    Ok(())
}

#[test]
fn values(rt: HostRuntime) -> Result<(), Fail> {
    for (text, want) in VALUES {
        check_value(&rt, rt.alloc(), text, want)?;
    }
    Ok(())
}

/// Built-ins, and whether they are true.
const TRUTHS: [(&str, bool); 22] = [
    ("-3 < 2", true),
    ("2 < 2", false),
    ("2 < -3", false),
    ("-3 =< 2", true),
    ("2 =< 2", true),
    ("2 =< -3", false),
    ("-3 > 2", false),
    ("2 > 2", false),
    ("2 > -3", true),
    ("-3 >= 2", false),
    ("2 >= 2", true),
    ("2 >= -3", true),
    ("1 =< X", false),
    ("1 =< 1 div 0", false),
    ("3 is 1 + 2", true),
    ("4 is 1 + 2", false),
    ("X is X", false),
    ("f(a, -1) = f(a, -1)", true),
    ("f(a) = f(b)", false),
    ("X = X", true),
    ("1 \\= X", true),
    ("a \\= a", false),
];

#[test]
fn truths(rt: HostRuntime) -> Result<(), Fail> {
    for (text, want) in TRUTHS {
        let built = built_of(rt.alloc(), text)?;
        assert_eq!(rt; holds(&built), want, "{text}");
    }
    Ok(())
}
