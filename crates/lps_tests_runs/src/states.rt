//! Runs of texts with laws under conditions, clauses and denials.
use crate::call::{Call, PLAIN, check_run};
use std::alloc::{AllocError, Global};
use std::process::Abort;
use std::test::Fail;

/// A text, a stream, and the report.
type Run = (&'static str, &'static str, &'static str);

/// What is terminated in a cycle still makes conditions true in it.
const EFFECTS_IN_THE_OLD_STATE: Run = (
    "fluent on/0, lit/0. event sever/0, press/0. initially on.\n\
        sever terminates on. press initiates lit if on.",
    "1: sever, press.\n2: press.\n",
    "cycle 0\nstate on\ncycle 1\nadmit sever\nadmit press\nstate lit\ncycle 2\nadmit press\nstate lit\ndone\n",
);

/// A counter that is admitted to 2, and then rejected twice by a denial over the state after.
const COUNTER: Run = (
    "fluent n/1. event up/0. initially n(1). up initiates n(M) if n(N), M is N + 1.\n\
        up terminates n(N) if n(N). false up from T1 to T2, n(3) at T2.",
    "1: up.\n2: up, up.\n",
    "cycle 0\nstate n(1)\ncycle 1\nadmit up\nstate n(2)\n\
        cycle 2\nreject up by 1\nreject up by 1\nstate n(2)\ndone\n",
);

/// An event that would be admitted alone is rejected after another one, and a repeated one adds nothing.
const DENIAL_OF_EVENTS: Run = (
    "event order/1. false order(X) from T1 to T2, order(Y) from T1 to T2, X \\= Y.",
    "1: order(a), order(b), order(a).\n2: order(b).\n",
    "cycle 0\nstate\ncycle 1\nadmit order(a)\nreject order(b) by 1\nadmit order(a)\nstate\n\
        cycle 2\nadmit order(b)\nstate\ndone\n",
);

/// What another event of the batch changes comes too late for the state before. A rejected event is judged again.
const DENIAL_OF_THE_STATE_BEFORE: Run = (
    "fluent shut/0, gone/0. event go/0, open/0. initially shut. open terminates shut.\n\
        go initiates gone. false go from T1 to T2, shut at T1.",
    "1: go, open, go.\n2: go.\n",
    "cycle 0\nstate shut\ncycle 1\nreject go by 1\nadmit open\nreject go by 1\nstate\n\
        cycle 2\nadmit go\nstate gone\ndone\n",
);

/// Denials over both states with clauses, negation and built-ins, of which the least number is told; one is violated by the
/// second of several instances.
const DENIALS_OF_BOTH_STATES: Run = (
    "fluent stands/2. event move/2. derived free(+).\n\
        free(P) if not taken(P).\n\
        derived taken(+). taken(P) if stands(X, P). initially stands(x, a), stands(y, c).\n\
        move(X, P) initiates stands(X, P). move(X, P) terminates stands(X, Q) if stands(X, Q), Q \\= P.\n\
        false move(X, P) from T1 to T2, stands(Y, P) at T2, stands(Z, P) at T2, Y \\= Z.\n\
        false move(X, P) from T1 to T2, not free(P) at T1.\n\
        false move(X, P) from T1 to T2, stands(X, Q) at T1, not stands(X, Q) at T2, Q = a, P = c.",
    "1: move(x, c), move(x, b), move(y, b).\n2: move(y, a), move(x, b).\n",
    "cycle 0\nstate stands(x, a), stands(y, c)\ncycle 1\nreject move(x, c) by 1\nadmit move(x, b)\n\
        reject move(y, b) by 1\nstate stands(x, b), stands(y, c)\ncycle 2\nadmit move(y, a)\n\
        reject move(x, b) by 2\nstate stands(x, b), stands(y, a)\ndone\n",
);

/// What a later event touches may make an earlier one violate a denial over the state after: by a fluent that ends, by one that
/// begins, or by a clause.
const DENIALS_OF_WHAT_IS_TOUCHED: Run = (
    "fluent in/1, dark/0. event watch/1, leave/1, switch/0, ask/0. derived alone.\n\
        alone if not in(b). initially in(a), in(b). leave(X) terminates in(X). switch initiates dark.\n\
        false watch(X) from T1 to T2, not in(X) at T2.\n\
        false watch(X) from T1 to T2, dark at T2.\n\
        false ask from T1 to T2, alone at T2.",
    "1: ask, leave(a), leave(b).\n2: watch(b), leave(b), switch, leave(c).\n3: watch(a).\n4: switch, watch(b).\n",
    "cycle 0\nstate in(a), in(b)\ncycle 1\nadmit ask\nadmit leave(a)\nreject leave(b) by 3\nstate in(b)\n\
        cycle 2\nadmit watch(b)\nreject leave(b) by 1\nreject switch by 2\nadmit leave(c)\nstate in(b)\n\
        cycle 3\nreject watch(a) by 1\nstate in(b)\ncycle 4\nadmit switch\nreject watch(b) by 2\n\
        state dark, in(b)\ndone\n",
);

/// A sum that leaves the integers of 64 bits has no effect.
const SUM_OUT_OF_RANGE: Run = (
    "fluent n/1. event up/0. initially n(9223372036854775807).\n\
        up initiates n(M) if n(N), M is N + 1.",
    "1: up.\n",
    "cycle 0\nstate n(9223372036854775807)\ncycle 1\nadmit up\nstate n(9223372036854775807)\ndone\n",
);

/// Effects by a recursive clause over data; what is initiated and terminated at once holds.
const RECURSION: Run = (
    "fluent n/1. event add/1. timeless plus(*, +, -). plus(z, Y, Y). plus(s(X), Y, s(Z)) if plus(X, Y, Z).\n\
        initially n(s(z)). add(X) initiates n(Z) if n(Y), plus(X, Y, Z). add(X) terminates n(Y) if n(Y).",
    "1: add(s(s(z))).\n2: add(z).\n",
    "cycle 0\nstate n(s(z))\ncycle 1\nadmit add(s(s(z)))\nstate n(s(s(s(z))))\n\
        cycle 2\nadmit add(z)\nstate n(s(s(s(z))))\ndone\n",
);

#[test]
fn runs(rt: HostRuntime) -> Result<(), Fail> {
    for (text, stream, printed) in [
        EFFECTS_IN_THE_OLD_STATE,
        COUNTER,
        DENIAL_OF_EVENTS,
        DENIAL_OF_THE_STATE_BEFORE,
        DENIALS_OF_BOTH_STATES,
        DENIALS_OF_WHAT_IS_TOUCHED,
        SUM_OUT_OF_RANGE,
        RECURSION,
    ] {
        let call = Call {
            text,
            stream,
            printed,
            ..PLAIN
        };
        check_run(&rt, rt.alloc(), &call)?;
    }
    Ok(())
}

/// Appends the second text so many times.
fn repeat(text: &mut String, part: &str, count: usize) -> Result<(), AllocError> {
    for _ in 0..count {
        text.push_str(part)?;
    }
    Ok(())
}

/// The name of so many times `s` round `z`.
fn nested(alloc: Global, name: &str, count: usize) -> Result<String, AllocError> {
    let mut text = String::from_str(alloc, name)?;
    repeat(&mut text, "(s", count)?;
    text.push_str("(z")?;
    repeat(&mut text, ")", count)?;
    text.push_str(")")?;
    Ok(text)
}

/// The law of one event makes the report of this stream.
fn check_law<'a>(
    rt: &impl Abort,
    alloc: Global,
    stream: &'a str,
    printed: &'a str,
) -> Result<(), Fail> {
    let call = Call {
        text: "fluent p/1. event e/1. e(X) initiates p(s(X)).",
        stream,
        printed,
        ..PLAIN
    };
    check_run(rt, alloc, &call)
}

/// An event of `e` round so many `s` is admitted, and leaves this state.
fn check_nested(rt: &impl Abort, alloc: Global, count: usize, state: &str) -> Result<(), Fail> {
    let event = nested(alloc, "e", count)?;
    let stream = format!(in alloc; "1: {event}.\n")?;
    let printed = format!(in alloc;
        "cycle 0\nstate\ncycle 1\nadmit {event}\nstate{state}\ndone\n"
    )?;
    check_law(rt, alloc, stream.as_str(), printed.as_str())
}

/// An event of 1,023 symbols initiates a fact of 1,024; one of 1,024 symbols is admitted and initiates none.
#[test]
fn effects_of_the_greatest_size(rt: HostRuntime) -> Result<(), Fail> {
    let alloc = rt.alloc();
    let fact = nested(alloc, " p", 1022)?;
    check_nested(&rt, alloc, 1021, fact.as_str())?;
    check_nested(&rt, alloc, 1022, "")
}
