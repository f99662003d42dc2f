//! Whole reports, however the stream is cut.
use crate::call::{Call, PLAIN, check_run};
use std::test::Fail;

const SWITCH: &str =
    "fluent p/0.\nevent e/0.\nevent g/0.\ne initiates p.\ne terminates p.\ng terminates p.\n";

const STOCK: &str = "fluent stock/2. event sell/1. initially stock(pen, 5).\n\
    sell(pen) initiates stock(pen, 4). sell(pen) terminates stock(pen, 5).\n";

/// Texts, streams and reports.
const REPORTS: [(&str, &str, &str); 7] = [
    ("", "", "cycle 0\nstate\ndone\n"),
    (
        SWITCH,
        "1: e, e.\n2: .\n3: g.\n",
        "cycle 0\nstate\ncycle 1\nadmit e\nadmit e\nstate p\ncycle 2\nstate p\ncycle 3\nadmit g\nstate\ndone\n",
    ),
    (
        SWITCH,
        "% day one\n\n 1 : e .",
        "cycle 0\nstate\ncycle 1\nadmit e\nstate p\ndone\n",
    ),
    (
        SWITCH,
        "1: e.\r\n \t\n",
        "cycle 0\nstate\ncycle 1\nadmit e\nstate p\ndone\n",
    ),
    (
        "fluent b/0.\nfluent a/0.\ninitially b.\ninitially a.\ninitially b.\n",
        "",
        "cycle 0\nstate a, b\ndone\n",
    ),
    (
        STOCK,
        "1: sell(cap).\n2: sell(pen).\n",
        "cycle 0\nstate stock(pen, 5)\ncycle 1\nadmit sell(cap)\nstate stock(pen, 5)\n\
            cycle 2\nadmit sell(pen)\nstate stock(pen, 4)\ndone\n",
    ),
    (
        "fluent p/1. event e/0. e initiates p(-2). e initiates p(f(b, 1)). e initiates p(a).",
        "1: e.",
        "cycle 0\nstate\ncycle 1\nadmit e\nstate p(-2), p(a), p(f(b, 1))\ndone\n",
    ),
];

#[test]
fn reports_in_any_pieces(rt: HostRuntime) -> Result<(), Fail> {
    for (text, stream, printed) in REPORTS {
        for piece in [1, 2, 7, 16384] {
            let call = Call {
                text,
                stream,
                piece,
                printed,
                ..PLAIN
            };
            check_run(&rt, rt.alloc(), &call)?;
        }
    }
    Ok(())
}
