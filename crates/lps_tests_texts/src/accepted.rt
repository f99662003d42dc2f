//! What an accepted text tells of its names.
use crate::judge::formed_text;
use lps_accept::accept;
use lps_model::Accepted;
use lps_terms::{Kind, Name};
use std::alloc::Global;
use std::process::Abort;
use std::test::Fail;

fn accepted(alloc: Global, bytes: &[u8]) -> Result<Accepted, Fail> {
    let text = formed_text(alloc, bytes).ok().ok_or("not read")?;
    Ok(accept(alloc, text).ok().ok_or("not accepted")?)
}

/// For each name its kind and its number of arguments.
const NAMES: [(&str, Option<Kind>, Option<u32>); 6] = [
    ("f", Some(Kind::Fluent), Some(2)),
    ("e", Some(Kind::Event), Some(0)),
    ("p", Some(Kind::Timeless), Some(1)),
    ("q", Some(Kind::Timeless), Some(0)),
    ("m", Some(Kind::Macro), Some(0)),
    ("z", None, None),
];

fn name(alloc: Global, word: &str) -> Result<Name, Fail> {
    Ok(Name::new(alloc, word.as_bytes())?.ok_or("no name")?)
}

/// Checks what is declared of a name.
fn check_name(
    rt: &impl Abort,
    text: &Accepted,
    name: &Name,
    kind: Option<Kind>,
    arity: Option<u32>,
) {
    assert_eq!(rt; text.kind(name), kind);
    assert_eq!(rt; text.arity(name), arity);
    assert_eq!(rt; text.decl(name).is_some(), kind.is_some());
}

const TEXT: &[u8] = b"fluent f/2. event e/0. timeless p(+), q. macro m. p(X) if not q, X = X.";

#[test]
fn declared_names(rt: HostRuntime) -> Result<(), Fail> {
    let text = accepted(rt.alloc(), TEXT)?;
    assert_eq!(rt; text.text().statements.len(), 5);
    for (word, kind, arity) in NAMES {
        check_name(&rt, &text, &name(rt.alloc(), word)?, kind, arity);
    }
    Ok(())
}

/// What is negated has a lower level, and a fluent has none.
#[test]
fn levels_of_names(rt: HostRuntime) -> Result<(), Fail> {
    let text = accepted(rt.alloc(), TEXT)?;
    let levels = text.levels();
    assert!(rt; levels.level(&name(rt.alloc(), "p")?) > levels.level(&name(rt.alloc(), "q")?));
    assert!(rt; levels.level(&name(rt.alloc(), "q")?).is_some());
    assert!(rt; levels.level(&name(rt.alloc(), "f")?).is_none());
    Ok(())
}
