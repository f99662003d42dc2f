//! The order of times in sequences and denials, groups, and the times of macro heads.
use crate::judge::check_table;
use std::test::Fail;

/// The statement of a row stands on line 2.
const DECLARED: &str = "fluent p/0. timeless t. t. event e/0, f/0. action a/0, b/0. macro m, n.\n";

const RIGHT: &str = "accepted";

const ORDER: &str = "text line 2: out of order";

const MIXED: &str = "text line 2: mixed group";

const HEAD: &str = "text line 2: bad head times";

/// A step, then any first begin, later begins, and ends.
const SEQUENCES: [(&str, &str); 15] = [
    ("if t, T0 =< T1 then a from T8 to T9.", ORDER),
    ("if p at T0 then a from T8 to T9.", RIGHT),
    ("if p at T0, p at T0, p at T1 then a from T8 to T9.", RIGHT),
    ("if e from T0 to T1 then a from T8 to T9.", RIGHT),
    ("if e from T0 to T0 then a from T8 to T9.", ORDER),
    ("if e from T0 to T1, p at T0 then a from T8 to T9.", ORDER),
    (
        "if e from T0 to T1, p at T1, p at T2 then a from T8 to T9.",
        RIGHT,
    ),
    (
        "if e from T0 to T1, f from T0 to T1 then a from T8 to T9.",
        RIGHT,
    ),
    (
        "if e from T0 to T1, t, f from T0 to T1 then a from T8 to T9.",
        ORDER,
    ),
    (
        "if e from T0 to T1, f from T0 to T2 then a from T8 to T9.",
        ORDER,
    ),
    (
        "if e from T0 to T1, f from T1 to T2 then a from T8 to T9.",
        RIGHT,
    ),
    (
        "if e from T0 to T1, f from T1 to T0 then a from T8 to T9.",
        ORDER,
    ),
    (
        "m from T0 to T1 if n from T0 to T1, n from T0 to T1.",
        ORDER,
    ),
    ("if p at T0, e from T1 to T0 then a from T8 to T9.", ORDER),
    ("if p at T0, p at T1, p at T0 then a from T8 to T9.", ORDER),
];

#[test]
fn sequences(rt: HostRuntime) -> Result<(), Fail> {
    check_table(&rt, rt.alloc(), DECLARED, SEQUENCES.as_slice())
}

/// After an antecedent that ends at time 1, and has time 7 in a constraint.
const ALTERNATIVES: [(&str, &str); 13] = [
    ("t.", ORDER),
    ("a from T1 to T2.", RIGHT),
    ("a from T2 to T3.", RIGHT),
    ("a from T0 to T2.", ORDER),
    ("a from T7 to T2.", ORDER),
    ("a from T2 to T0.", ORDER),
    ("a from T2 to T1.", ORDER),
    ("a from T2 to T7.", ORDER),
    ("a from T2 to T3, m from T3 to T4.", RIGHT),
    ("a from T2 to T3, m from T1 to T4.", ORDER),
    ("p at T1, a from T1 to T2, b from T1 to T2.", RIGHT),
    ("b from T1 to T2 or b from T1 to T2.", RIGHT),
    ("b from T1 to T2 or t.", ORDER),
];

#[test]
fn alternatives(rt: HostRuntime) -> Result<(), Fail> {
    let antecedent = "fluent p/0. timeless t. t. event e/0. action a/0, b/0. macro m.\n\
        if e from T7 to T0, p at T0, p at T1 then ";
    check_table(&rt, rt.alloc(), antecedent, ALTERNATIVES.as_slice())
}

/// One pair of different times, and the second after all others.
const DENIALS: [(&str, &str); 8] = [
    ("false e from T0 to T1.", RIGHT),
    (
        "false p at T0, e from T0 to T1, t, a from T0 to T1, p at T0, p at T1, p at T1.",
        RIGHT,
    ),
    ("false e from T0 to T0.", ORDER),
    ("false e from T0 to T1, a from T0 to T2.", ORDER),
    ("false e from T0 to T1, a from T2 to T1.", ORDER),
    ("false p at T2, e from T0 to T1.", ORDER),
    ("false e from T0 to T1, p at T1, p at T0.", ORDER),
    ("false p at T1, e from T0 to T1.", ORDER),
];

#[test]
fn denials(rt: HostRuntime) -> Result<(), Fail> {
    check_table(&rt, rt.alloc(), DECLARED, DENIALS.as_slice())
}

const GROUPS_AND_HEADS: [(&str, &str); 9] = [
    (
        "if e from T0 to T1 then a from T2 to T3, e from T2 to T3.",
        MIXED,
    ),
    (
        "if e from T0 to T1, a from T0 to T1 then a from T2 to T3.",
        RIGHT,
    ),
    (
        "if e from T0 to T1 then a from T2 to T3, e from T3 to T4.",
        RIGHT,
    ),
    (
        "if p at T0 then a from T2 to T3 or e from T2 to T3, f from T2 to T3, b from T2 to T3.",
        MIXED,
    ),
    (
        "m from T0 to T1 if e from T0 to T1, a from T0 to T1.",
        MIXED,
    ),
    (
        "m from T0 to T2 if a from T0 to T1, t, n from T1 to T2.",
        RIGHT,
    ),
    ("m from T0 to T0 if p at T0.", RIGHT),
    ("m from T1 to T2 if a from T0 to T1, n from T1 to T2.", HEAD),
    ("m from T0 to T1 if a from T0 to T1, n from T1 to T2.", HEAD),
];

#[test]
fn groups_and_heads(rt: HostRuntime) -> Result<(), Fail> {
    check_table(&rt, rt.alloc(), DECLARED, GROUPS_AND_HEADS.as_slice())
}
