//! Runs of texts with rules: what is created, picked and closed.
use crate::call::{Call, PLAIN, check_run};
use std::alloc::Global;
use std::process::Abort;
use std::test::Fail;

/// A text, a stream, and the report.
type Run = (&'static str, &'static str, &'static str);

/// Two goals want one room. The older one has it first, though its event came last: goals of a cycle go by their values. While the
/// room is left, the state before still has it taken.
const ONE_ROOM: Run = (
    "fluent room/1. event book/1, leave/1. action open/1.\n\
        open(X) initiates room(X). leave(X) terminates room(X).\n\
        false open(X) from T1 to T2, open(Y) from T1 to T2, X \\= Y.\n\
        false open(X) from T1 to T2, room(Y) at T1.\n\
        if book(X) from T1 to T2 then open(X) from T3 to T4.",
    "1: book(b), book(a).\n2: .\n3: leave(a).\n4: .\n",
    "cycle 0\nstate\ncycle 1\nadmit book(b)\nadmit book(a)\nstate\ngoal 1 rule 1 with a\ngoal 2 rule 1 with b\n\
        cycle 2\ndo open(a) for 1\nstate room(a)\nsolved 1\n\
        cycle 3\nadmit leave(a)\nstate\n\
        cycle 4\ndo open(b) for 2\nstate room(b)\nsolved 2\ndone\n",
);

/// Goals are solved without a pick of their own: in the cycle that creates them, by an event, and by what another goal does.
const SOLVED_BY_OTHERS: Run = (
    "fluent lit/0. event dusk/0, call/0, answer/0. action light/0. light initiates lit.\n\
        if dusk from T1 to T2 then light from T3 to T4.\n\
        if dusk from T1 to T2 then lit at T3.\n\
        if call from T1 to T2 then answer from T3 to T4.\n\
        if call from T1 to T2 then not lit at T2.",
    "1: call.\n2: dusk.\n3: answer.\n",
    "cycle 0\nstate\ncycle 1\nadmit call\nstate\ngoal 1 rule 3\ngoal 2 rule 4 with 1\nsolved 2\n\
        cycle 2\nadmit dusk\nstate\ngoal 3 rule 1\ngoal 4 rule 2\n\
        cycle 3\nadmit answer\ndo light for 3\nstate lit\nsolved 1\nsolved 3\nsolved 4\ndone\n",
);

/// The first alternative that may be done is done.
const ALTERNATIVES: Run = (
    "fluent busy/0. event ask/1, start/0. action first/1, second/1. start initiates busy.\n\
        false first(X) from T1 to T2, busy at T1.\n\
        if ask(X) from T1 to T2 then first(X) from T3 to T4 or second(X) from T3 to T4.",
    "1: ask(a).\n2: ask(b), start.\n3: .\n",
    "cycle 0\nstate\ncycle 1\nadmit ask(a)\nstate\ngoal 1 rule 1 with a\n\
        cycle 2\nadmit ask(b)\nadmit start\ndo first(a) for 1\nstate busy\ngoal 2 rule 1 with b\nsolved 1\n\
        cycle 3\ndo second(b) for 2\nstate busy\nsolved 2\ndone\n",
);

/// A denial over the state after refuses a group of two actions as a whole.
const WHOLE_GROUP: Run = (
    "fluent weight/1. event order/1. action pack/1, load/1, hold/1. initially weight(0).\n\
        load(X) initiates weight(M) if weight(N), M is N + X. load(X) terminates weight(N) if weight(N).\n\
        false load(X) from T1 to T2, weight(N) at T2, N > 5.\n\
        if order(X) from T1 to T2 then pack(X) from T3 to T4, load(X) from T3 to T4 or hold(X) from T3 to T4.",
    "1: order(3).\n2: order(4).\n3: .\n",
    "cycle 0\nstate weight(0)\ncycle 1\nadmit order(3)\nstate weight(0)\ngoal 1 rule 1 with 3\n\
        cycle 2\nadmit order(4)\ndo load(3), pack(3) for 1\nstate weight(3)\ngoal 2 rule 1 with 4\nsolved 1\n\
        cycle 3\ndo hold(4) for 2\nstate weight(3)\nsolved 2\ndone\n",
);

/// What the older goal proposes may be done only once the younger one has made its pick.
const SECOND_PASS: Run = (
    "fluent green/0. event walk/0. action cross/0, switch/0. switch initiates green.\n\
        false cross from T1 to T2, not green at T2.\n\
        if walk from T1 to T2 then cross from T3 to T4.\n\
        if walk from T1 to T2 then switch from T3 to T4.",
    "1: walk.\n2: .\n",
    "cycle 0\nstate\ncycle 1\nadmit walk\nstate\ngoal 1 rule 1\ngoal 2 rule 2\n\
        cycle 2\ndo switch for 2\ndo cross for 1\nstate green\nsolved 1\nsolved 2\ndone\n",
);

/// Two goals pick the same action.
const SAME_PICK: Run = (
    "event smoke/0, heat/0. action ring/0.\n\
        if smoke from T1 to T2 then ring from T3 to T4.\n\
        if heat from T1 to T2 then ring from T3 to T4.",
    "1: smoke, heat.\n2: .\n",
    "cycle 0\nstate\ncycle 1\nadmit smoke\nadmit heat\nstate\ngoal 1 rule 1\ngoal 2 rule 2\n\
        cycle 2\ndo ring for 1\ndo ring for 2\nstate\nsolved 1\nsolved 2\ndone\n",
);

/// What was done is done again only once the plan that has it behind can't go on any more.
const BEGUN_ANEW: Run = (
    "event order/0, paid/0. action bill/0.\n\
        if order from T1 to T2 then bill from T3 to T4, paid from T4 to T5.",
    "1: order.\n2: .\n3: .\n4: .\n5: paid.\n",
    "cycle 0\nstate\ncycle 1\nadmit order\nstate\ngoal 1 rule 1\ncycle 2\ndo bill for 1\nstate\ncycle 3\nstate\n\
        cycle 4\ndo bill for 1\nstate\ncycle 5\nadmit paid\nstate\nsolved 1\ndone\n",
);

/// A built-in decides which alternative there is.
const BUILT_IN: Run = (
    "event order/2. action carry/1, drive/1.\n\
        if order(X, N) from T1 to T2 then N < 3, carry(X) from T3 to T4 or N >= 3, drive(X) from T3 to T4.",
    "1: order(box, 2).\n2: order(sofa, 9).\n3: .\n",
    "cycle 0\nstate\ncycle 1\nadmit order(box, 2)\nstate\ngoal 1 rule 1 with box, 2\n\
        cycle 2\nadmit order(sofa, 9)\ndo carry(box) for 1\nstate\ngoal 2 rule 1 with sofa, 9\nsolved 1\n\
        cycle 3\ndo drive(sofa) for 2\nstate\nsolved 2\ndone\n",
);

/// A plan waits until a fluent doesn't hold, and begins in that state.
const NEGATED_STATE: Run = (
    "fluent busy/0. event ask/0, free/0. action start/0. initially busy. free terminates busy.\n\
        if ask from T1 to T2 then not busy at T3, start from T3 to T4.",
    "1: ask.\n2: .\n3: free.\n4: .\n",
    "cycle 0\nstate busy\ncycle 1\nadmit ask\nstate busy\ngoal 1 rule 1\ncycle 2\nstate busy\n\
        cycle 3\nadmit free\nstate\ncycle 4\ndo start for 1\nstate\nsolved 1\ndone\n",
);

/// An antecedent ends before its last cycle, in it, and too late.
const DEADLINE_OF_AN_ANTECEDENT: Run = (
    "event knock/1, open/1. action greet/1.\n\
        if knock(X) from T1 to T2, open(X) from T3 to T4, T4 =< T2 + 2 then greet(X) from T5 to T6.",
    "1: knock(a), knock(b), knock(c).\n2: open(a).\n3: open(b).\n4: open(c).\n5: .\n",
    "cycle 0\nstate\ncycle 1\nadmit knock(a)\nadmit knock(b)\nadmit knock(c)\nstate\n\
        cycle 2\nadmit open(a)\nstate\ngoal 1 rule 1 with a\n\
        cycle 3\nadmit open(b)\ndo greet(a) for 1\nstate\ngoal 2 rule 1 with b\nsolved 1\n\
        cycle 4\nadmit open(c)\ndo greet(b) for 2\nstate\nsolved 2\ncycle 5\nstate\ndone\n",
);

/// Actions that are to end at a time, not before a time, and between two times.
const TIMES_COMPARED: Run = (
    "event e/0. action a/0, b/0, c/0.\n\
        if e from T1 to T2 then a from T3 to T4, T4 = T2 + 2.\n\
        if e from T1 to T2 then b from T3 to T4, T4 >= T2 + 3.\n\
        if e from T1 to T2 then c from T3 to T4, T4 > T2 + 1, T4 < T2 + 3.",
    "1: e.\n2: .\n3: .\n4: .\n",
    "cycle 0\nstate\ncycle 1\nadmit e\nstate\ngoal 1 rule 1 with 1\ngoal 2 rule 2 with 1\ngoal 3 rule 3 with 1\n\
        cycle 2\nstate\ncycle 3\ndo a for 1\ndo c for 3\nstate\nsolved 1\nsolved 3\n\
        cycle 4\ndo b for 2\nstate\nsolved 2\ndone\n",
);

/// One event meets two rules, and twice an item of one of them; two instances of an antecedent with one key are one goal.
const INSTANCES: Run = (
    "event e/1. action a/2, b/0.\n\
        if e(X) from T1 to T2, e(Y) from T1 to T2 then a(X, Y) from T3 to T4.\n\
        if e(X) from T1 to T2 then b from T3 to T4.",
    "1: e(q), e(p).\n2: .\n",
    "cycle 0\nstate\ncycle 1\nadmit e(q)\nadmit e(p)\nstate\ngoal 1 rule 1 with p, p\ngoal 2 rule 1 with p, q\n\
        goal 3 rule 1 with q, p\ngoal 4 rule 1 with q, q\ngoal 5 rule 2\n\
        cycle 2\ndo a(p, p) for 1\ndo a(p, q) for 2\ndo a(q, p) for 3\ndo a(q, q) for 4\ndo b for 5\nstate\n\
        solved 1\nsolved 2\nsolved 3\nsolved 4\nsolved 5\ndone\n",
);

/// A goal whose actions wait for an event is open at the end, as is one that was created last; what was done isn't done again.
const LEFT_OPEN: Run = (
    "event order/0, paid/0. action bill/0, ship/0.\n\
        if order from T1 to T2 then bill from T3 to T4, paid from T5 to T6, ship from T7 to T8.",
    "1: order.\n2: .\n3: .\n4: paid.\n5: order.\n6: .\n7: order.\n",
    "cycle 0\nstate\ncycle 1\nadmit order\nstate\ngoal 1 rule 1\ncycle 2\ndo bill for 1\nstate\ncycle 3\nstate\n\
        cycle 4\nadmit paid\nstate\ncycle 5\nadmit order\ndo ship for 1\nstate\ngoal 2 rule 1\nsolved 1\n\
        cycle 6\ndo bill for 2\nstate\ncycle 7\nadmit order\nstate\ngoal 3 rule 1\nopen 2 failed 0 cut 0\n",
);

/// Goals fail at their deadline, in the cycle that creates them, and with the last alternative that is left; one stays open.
const FAILED: Run = (
    "fluent open/0. event ask/0, reply/0, close/0. initially open. close terminates open.\n\
        if ask from T1 to T2 then reply from T3 to T4, T4 =< T2 + 1.\n\
        if ask from T1 to T2 then open at T2.\n\
        if ask from T1 to T2 then reply from T3 to T4, T4 =< T2 + 1 or reply from T5 to T6, T6 =< T2 + 3.\n\
        if ask from T1 to T2 then reply from T3 to T4.",
    "1: close.\n2: ask.\n3: .\n4: .\n5: .\n",
    "cycle 0\nstate open\ncycle 1\nadmit close\nstate\n\
        cycle 2\nadmit ask\nstate\ngoal 1 rule 1 with 2\ngoal 2 rule 2 with 2\ngoal 3 rule 3 with 2\ngoal 4 rule 4\nfailed 2\n\
        cycle 3\nstate\nfailed 1\ncycle 4\nstate\ncycle 5\nstate\nfailed 3\nopen 1 failed 3 cut 0\n",
);

/// Antecedents that are true in the initial state: one goal waits, one is solved at once, and one fails at once.
const TRUE_AT_THE_START: Run = (
    "fluent p/0. action a/0. initially p. a terminates p.\n\
        if p at T then a from T1 to T2.\n\
        if p at T then p at T.\n\
        if p at T then not p at T.",
    "1: .\n2: .\n",
    "cycle 0\nstate p\ngoal 1 rule 1\ngoal 2 rule 2 with 0\ngoal 3 rule 3 with 0\nsolved 2\nfailed 3\n\
        cycle 1\ndo a for 1\nstate\nsolved 1\ncycle 2\nstate\nopen 0 failed 1 cut 0\n",
);

/// A consequent begins at the end of its antecedent, and each step at the end of the one before: once by picks, and once too late.
const REPEATED_TIMES: Run = (
    "fluent p/0. event e/0, block/0. action a/0, b/0. a initiates p.\n\
        false a from T1 to T2, block from T1 to T2.\n\
        if e from T1 to T2 then a from T2 to T3, p at T3, b from T3 to T4.",
    "1: e.\n2: .\n3: .\n4: e.\n5: block.\n",
    "cycle 0\nstate\ncycle 1\nadmit e\nstate\ngoal 1 rule 1 with 1\ncycle 2\ndo a for 1\nstate p\n\
        cycle 3\ndo b for 1\nstate p\nsolved 1\ncycle 4\nadmit e\nstate p\ngoal 2 rule 1 with 4\n\
        cycle 5\nadmit block\nstate p\nfailed 2\nopen 0 failed 1 cut 0\n",
);

fn check_runs(rt: &impl Abort, alloc: Global, runs: &[(Run, &str)], code: u8) -> Result<(), Fail> {
    for ((text, stream, printed), line) in runs {
        let call = Call {
            text,
            stream,
            code,
            line,
            printed,
            ..PLAIN
        };
        check_run(rt, alloc, &call)?;
    }
    Ok(())
}

#[test]
fn runs_that_solve_all_goals(rt: HostRuntime) -> Result<(), Fail> {
    let runs = [
        (ONE_ROOM, "done"),
        (SOLVED_BY_OTHERS, "done"),
        (ALTERNATIVES, "done"),
        (WHOLE_GROUP, "done"),
        (SECOND_PASS, "done"),
        (SAME_PICK, "done"),
        (BEGUN_ANEW, "done"),
        (BUILT_IN, "done"),
        (NEGATED_STATE, "done"),
        (DEADLINE_OF_AN_ANTECEDENT, "done"),
        (TIMES_COMPARED, "done"),
        (INSTANCES, "done"),
    ];
    check_runs(&rt, rt.alloc(), &runs, 0)
}

#[test]
fn runs_that_leave_goals(rt: HostRuntime) -> Result<(), Fail> {
    let runs = [
        (LEFT_OPEN, "open 2 failed 0 cut 0"),
        (FAILED, "open 1 failed 3 cut 0"),
        (TRUE_AT_THE_START, "open 0 failed 1 cut 0"),
        (REPEATED_TIMES, "open 0 failed 1 cut 0"),
    ];
    check_runs(&rt, rt.alloc(), &runs, 1)
}
