//! Calls to the outside that fail: nothing is printed after them, and the answer names them.
use crate::call::{Call, PLAIN, check_run};
use std::test::Fail;

/// A run of two batches, each of which a read takes.
const FAULTY: Call<'static> = Call {
    text: "fluent p/0.\nevent e/0.\ne initiates p.\n",
    stream: "1: e.\n2: .\n",
    piece: 6,
    code: 7,
    ..PLAIN
};

/// What is out where the print of this number fails with half of its bytes out.
const HALVES: [(u64, &str); 4] = [
    (1, "cycle 0"),
    (2, "cycle 0\nstate\ncycle 1\nadmi"),
    (3, "cycle 0\nstate\ncycle 1\nadmit e\nstate p\ncycle 2\n"),
    (
        4,
        "cycle 0\nstate\ncycle 1\nadmit e\nstate p\ncycle 2\nstate p\ndo",
    ),
];

#[test]
fn failing_prints(rt: HostRuntime) -> Result<(), Fail> {
    for (number, printed) in HALVES {
        let call = Call {
            print_fails: &[number],
            line: "print fault",
            printed,
            ..FAULTY
        };
        check_run(&rt, rt.alloc(), &call)?;
    }
    Ok(())
}

/// What is out where the read of this number fails; the third would find the end.
const READ: [(u64, &str); 3] = [
    (1, "cycle 0\nstate\n"),
    (2, "cycle 0\nstate\ncycle 1\nadmit e\nstate p\n"),
    (
        3,
        "cycle 0\nstate\ncycle 1\nadmit e\nstate p\ncycle 2\nstate p\n",
    ),
];

#[test]
fn failing_reads(rt: HostRuntime) -> Result<(), Fail> {
    for (number, printed) in READ {
        let call = Call {
            read_fails: &[number],
            line: "event fault",
            printed,
            ..FAULTY
        };
        check_run(&rt, rt.alloc(), &call)?;
    }
    Ok(())
}

#[test]
fn failing_text(rt: HostRuntime) -> Result<(), Fail> {
    let call = Call {
        text_fails: &[1],
        line: "text fault",
        printed: "",
        ..FAULTY
    };
    check_run(&rt, rt.alloc(), &call)
}
