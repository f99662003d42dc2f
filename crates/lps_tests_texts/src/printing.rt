//! The canonical texts of texts, which are read back as they are printed.
use lps_printer::print_text;
use lps_reader::read_text;
use std::alloc::Global;
use std::process::Abort;
use std::test::Fail;

/// Texts and their canonical texts.
const CANONICAL: [(&str, &str); 20] = [
    ("", ""),
    ("% nothing\n\t\r\n", ""),
    (
        "fluent  p/0 ,q/001.initially q( -7 ),p.",
        "fluent p/0, q/1.\ninitially q(-7), p.\n",
    ),
    (
        "timeless\nlen(*,-),max.derived full(+).macro walk(+,*),rest.",
        "timeless len(*, -), max.\nderived full(+).\nmacro walk(+, *), rest.\n",
    ),
    ("event e/2.action a/64.", "event e/2.\naction a/64.\n"),
    (
        "fluent p/007.\n\n\ninitially q(-0,_,_).",
        "fluent p/7.\ninitially q(0, _, _).\n",
    ),
    (
        "e(X)initiates p(s(X),_,_)if p(X,Y),not q,X\\=Y.",
        "e(X) initiates p(s(X), _, _) if p(X, Y), not q, X \\= Y.\n",
    ),
    ("a terminates p.", "a terminates p.\n"),
    (
        "q if X is((1+2))*-3 div(X mod 4)-0.",
        "q if X is (1 + 2) * -3 div (X mod 4) - 0.\n",
    ),
    (
        "q if((X*1)+Y)-(2-(3+4))=<(5),X=f(-0).",
        "q if X * 1 + Y - (2 - (3 + 4)) =< 5, X = f(0).\n",
    ),
    ("q(Y,X)if X is(Y*(2)).", "q(Y, X) if X is Y * 2.\n"),
    (
        "q if(X-1)-2>=X-(1-2),X<1,1>X.",
        "q if X - 1 - 2 >= X - (1 - 2), X < 1, 1 > X.\n",
    ),
    (
        "false a(X)from T1 to T2,not p(X)at T2,X>0.",
        "false a(X) from T1 to T2, not p(X) at T2, X > 0.\n",
    ),
    (
        "if p at T then a from T1 to T2,T2=<T+3,T1>T-0 or b from T to T1,T1=T.",
        "if p at T then a from T1 to T2, T2 =< T + 3, T1 > T or b from T to T1, T1 = T.\n",
    ),
    (
        "if p at T01 then a from T01 to T,T=<T01+0.",
        "if p at T01 then a from T01 to T, T =< T01.\n",
    ),
    (
        "walk(s(N))from T1 to T3 if step from T1 to T2,walk(N)from T2 to T3,T3<T1-1000000.",
        "walk(s(N)) from T1 to T3 if step from T1 to T2, walk(N) from T2 to T3, T3 < T1 - 1000000.\n",
    ),
    (
        "initially p(9223372036854775807,-9223372036854775808).",
        "initially p(9223372036854775807, -9223372036854775808).\n",
    ),
    ("iff if iffy(Iff,if_,_x).", "iff if iffy(Iff, if_, _x).\n"),
    ("p(f(a,g(b)),c).", "p(f(a, g(b)), c).\n"),
    ("p% if q\n.", "p.\n"),
];

/// Checks the canonical text of a text.
fn check_canonical(rt: &impl Abort, alloc: Global, text: &str, want: &str) -> Result<(), Fail> {
    let read = read_text(alloc, text.as_bytes()).ok().ok_or("not read")?;
    let bytes = print_text(alloc, &read)?;
    assert_eq!(rt; bytes.as_slice(), want.as_bytes(), "{text}");
    Ok(())
}

#[test]
fn canonical_texts(rt: HostRuntime) -> Result<(), Fail> {
    for (text, want) in CANONICAL {
        check_canonical(&rt, rt.alloc(), text, want)?;
        check_canonical(&rt, rt.alloc(), want, want)?;
    }
    Ok(())
}

/// For each statement its line, its variables and its times.
const STATEMENTS: [(u32, usize, usize); 4] = [(1, 0, 0), (4, 0, 0), (5, 2, 2), (6, 2, 0)];

#[test]
fn statements_have_lines_and_names(rt: HostRuntime) -> Result<(), Fail> {
    let bytes =
        b"fluent p/0.\n% two\n\ninitially\np. q(X, _, X) from T to T1 if p at T. \nr(_, _).";
    let text = read_text(rt.alloc(), bytes).ok().ok_or("not read")?;
    let mut found = Vec::new(rt.alloc());
    for statement in text.statements.as_slice() {
        let names = statement.names.len();
        found.push((statement.line, names, statement.times.len()))?;
    }
    assert_eq!(rt; found.as_slice(), STATEMENTS.as_slice());
    Ok(())
}
