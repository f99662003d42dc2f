//! Texts, streams and desks in memory, with calls that fail.
use lps_memworld::{MemDesk, MemSource, MemTexts, SureSource, SureTexts};
use lps_outside::{Desk, Source, Texts};
use std::alloc::{AllocError, Global};
use std::process::Abort;
use std::test::Fail;

/// Texts of the names `a` and `b`, with `a` listed twice.
fn named_texts(alloc: Global) -> Result<Vec<(String, Vec<u8>)>, AllocError> {
    let mut texts = Vec::new(alloc);
    for (name, text) in [("a", "abc"), ("b", "de"), ("a", "xyz")] {
        let bytes = Vec::from_slice(alloc, text.as_bytes())?;
        texts.push((String::from_str(alloc, name)?, bytes))?;
    }
    Ok(texts)
}

/// Reads of a text by name, place and room, and the bytes that they give; the second fails where a call fails.
const READS: [(&str, u64, usize, &str); 6] = [
    ("a", 0, 4, "abc"),
    ("a", 1, 1, "b"),
    ("b", 0, 2, "de"),
    ("b", 2, 4, ""),
    ("b", 9, 4, ""),
    ("c", 0, 4, ""),
];

/// Checks what a read of a text gives; nothing is a fault.
fn check_text(
    rt: &impl Abort,
    texts: &mut impl Texts,
    read: (&str, u64, usize),
    want: Option<&str>,
) {
    let (name, at, room) = read;
    let mut buffer = [0; 4];
    let into = &mut buffer[..room.min(4)];
    let read = texts.read(name, at, into);
    let got = read.ok().map(|count| &into[..count]);
    assert_eq!(rt; got, want.map(str::as_bytes));
}

#[test]
fn texts(rt: HostRuntime) -> Result<(), Fail> {
    let alloc = rt.alloc();
    let mut sure = SureTexts::new(named_texts(alloc)?);
    let mut failing = MemTexts::new(named_texts(alloc)?, Vec::from_slice(alloc, &[2])?);
    for (call, (name, at, room, want)) in READS.iter().enumerate() {
        let read = (*name, *at, *room);
        check_text(&rt, &mut sure, read, Some(want));
        let want = if call == 1 { None } else { Some(*want) };
        check_text(&rt, &mut failing, read, want);
    }
    Ok(())
}

/// How a stream of `abcde` is cut, which calls fail, and what reads of three bytes give; nothing is a fault.
const STREAMS: [(usize, &[u64], &[Option<&str>]); 4] = [
    (
        0,
        &[],
        &[
            Some("a"),
            Some("b"),
            Some("c"),
            Some("d"),
            Some("e"),
            Some(""),
        ],
    ),
    (2, &[], &[Some("ab"), Some("cd"), Some("e"), Some("")]),
    (9, &[], &[Some("abc"), Some("de"), Some("")]),
    (2, &[4, 2], &[Some("ab"), None, Some("cd"), None, Some("e")]),
];

fn check_stream(rt: &impl Abort, source: &mut impl Source, wants: &[Option<&str>]) {
    for want in wants {
        let mut into = [0; 3];
        let read = source.read(&mut into);
        let got = read.ok().map(|count| &into[..count]);
        assert_eq!(rt; got, want.map(str::as_bytes));
    }
}

#[test]
fn failing_streams(rt: HostRuntime) -> Result<(), Fail> {
    let alloc = rt.alloc();
    for (piece, fails, wants) in STREAMS {
        let bytes = Vec::from_slice(alloc, b"abcde")?;
        let fails = Vec::from_slice(alloc, fails)?;
        check_stream(&rt, &mut MemSource::new(bytes, piece, fails), wants);
    }
    Ok(())
}

#[test]
fn sure_streams(rt: HostRuntime) -> Result<(), Fail> {
    for (piece, _, wants) in &STREAMS[..3] {
        let bytes = Vec::from_slice(rt.alloc(), b"abcde")?;
        check_stream(&rt, &mut SureSource::new(bytes, *piece), wants);
    }
    Ok(())
}

/// Half of what is printed comes out where a print fails.
#[test]
fn prints(rt: HostRuntime) -> Result<(), Fail> {
    let alloc = rt.alloc();
    let mut desk = MemDesk::new(alloc, Vec::from_slice(alloc, &[2])?);
    for (bytes, ok, printed) in [
        ("ab", true, "ab"),
        ("cdefg", false, "abcd"),
        ("h", true, "abcdh"),
    ] {
        assert_eq!(rt; desk.print(bytes.as_bytes()).is_ok(), ok);
        assert_eq!(rt; desk.printed(), printed.as_bytes());
    }
    Ok(())
}
