//! What streams are read as, in any pieces. A batch is shown as a line of a stream, and the bad line by what is said of it.
ghost use Rattle.std.specs.Prelude.{◌+◌, ◌<◌, ◌≤◌, ◌^◌, length};

use crate::repeated::{Part, spelled};
use lps_batches::{BatchBad, BatchReader};
use lps_model::Batch;
use lps_terms::print_atom;
use std::alloc::{AllocError, Global};
use std::process::Abort;
use std::test::Fail;

fn show_batch(alloc: Global, out: &mut Vec<u8>, batch: &Batch) -> Result<(), Fail> {
    let number = format!(in alloc; "{}:", batch.number)?;
    out.extend_from_slice(number.as_str().as_bytes())?;
    for event in batch.events.as_slice() {
        out.push(b' ')?;
        print_atom(event, out)?;
    }
    out.push(b'\n')?;
    Ok(())
}

fn show_bad(alloc: Global, out: &mut Vec<u8>, bad: BatchBad) -> Result<(), Fail> {
    let said = format!(in alloc; "line {}: {}", bad.line, bad.kind)?;
    out.extend_from_slice(said.as_str().as_bytes())?;
    Ok(())
}

/// Shows the batches of the whole lines that are left. True where a bad line stands behind them.
fn show_whole(alloc: Global, reader: &mut BatchReader, out: &mut Vec<u8>) -> Result<bool, Fail>
    requires { reader.old.lines + length reader.old.left < 2 ^ 63 }
    ensures { reader.new.lines + length reader.new.left ≤ reader.old.lines + length reader.old.left }
{
    for _ in 0..u64::MAX {
        match reader.next(alloc)? {
            Some(Ok(batch)) => show_batch(alloc, out, &batch)?,
            Some(Err(bad)) => {
                show_bad(alloc, out, bad)?;
                return Ok(true);
            }
            None => return Ok(false),
        }
    }
    Ok(false)
}

/// Shows the batches that are left where the stream has ended, and the bad line.
fn show_rest(alloc: Global, reader: &mut BatchReader, out: &mut Vec<u8>) -> Result<(), Fail>
    requires { reader.old.lines + length reader.old.left < 2 ^ 63 }
{
    for _ in 0..u64::MAX {
        match reader.finish(alloc)? {
            Some(Ok(batch)) => show_batch(alloc, out, &batch)?,
            Some(Err(bad)) => return show_bad(alloc, out, bad),
            None => return Ok(()),
        }
    }
    Ok(())
}

/// The bytes at this place, at most so many.
fn piece_at(stream: &[u8], at: usize, size: usize) -> &[u8]
    requires some { 0 < size }
    requires within { at < length stream.now }
    ensures some { 0 < length result.now }
    ensures within { at + length result.now ≤ length stream.now }
{
    let end = at + size.min(stream.len() - at);
    &stream[at..end]
}

/// What a stream is read as in pieces of so many bytes.
fn shown(alloc: Global, stream: &[u8], size: usize) -> Result<Vec<u8>, Fail>
    requires { 0 < size }
{
    let mut reader = BatchReader::new(alloc);
    let mut out = Vec::new(alloc);
    let mut at = 0usize;
    while at < stream.len() {
        let piece = piece_at(stream, at, size);
        reader.feed(piece)?;
        let is_bad = show_whole(alloc, &mut reader, &mut out)?;
        if is_bad {
            return Ok(out);
        }
        at += piece.len();
    }
    show_rest(alloc, &mut reader, &mut out)?;
    Ok(out)
}

fn check(
    rt: &impl Abort,
    alloc: Global,
    stream: &[u8],
    size: usize,
    want: &str,
) -> Result<(), Fail> {
    assert!(rt; size > 0);
    let found = shown(alloc, stream, size)?;
    assert_eq!(rt;
        found.as_slice(),
        want.as_bytes(),
        "{want} in pieces of {size}"
    );
    Ok(())
}

const STREAMS: [(&[u8], &str); 18] = [
    (b"", ""),
    (b"\n \t\r\n% ?\n  % c", ""),
    (b"1: .\n2: .\n", "1:\n2:\n"),
    (
        b"\n1: a, b(c, -1).\r\n% c\n2:e.% c\n",
        "1: a b(c, -1)\n2: e\n",
    ),
    (b" 1 : e .", "1: e\n"),
    (
        b"0007: .\n9223372036854775808: .",
        "7:\n9223372036854775808:\n",
    ),
    (
        b"1: a(-9223372036854775808, f(b, 0)).",
        "1: a(-9223372036854775808, f(b, 0))\n",
    ),
    (b"1: .\n\n?\n3: .\n", "1:\nline 3: bad line"),
    (b"% c\n1: a%.\n", "line 2: bad line"),
    (b"1: X.\n", "line 1: bad line"),
    (b"1: T.\n", "line 1: bad line"),
    (b"1: if.\n", "line 1: bad line"),
    (b"1: a(9223372036854775808).\n", "line 1: bad line"),
    (b"9223372036854775809: .\n", "line 1: bad line"),
    (b"1: .\n2: a", "1:\nline 2: bad line"),
    (b"1: . .\n", "line 1: bad line"),
    (b"1: .?\n", "line 1: bad line"),
    (b"1: a b.\n", "line 1: bad line"),
];

#[test]
fn streams_in_any_pieces(rt: HostRuntime) -> Result<(), Fail> {
    for (stream, want) in STREAMS {
        for size in [1, 2, 3, 7, 1000000] {
            check(&rt, rt.alloc(), stream, size, want)?;
        }
    }
    Ok(())
}

/// A line is refused at its byte 65,537, whether it goes on or not.
const LONG: [(&[Part], &str); 4] = [
    (&[("%", 65536), ("\n1: .", 1)], "1:\n"),
    (&[("%", 65537)], "line 1: line too long"),
    (&[("%", 65537), ("\n1: .", 1)], "line 1: line too long"),
    (&[("1: .\n%", 1), (" ", 65536)], "1:\nline 2: line too long"),
];

#[test]
fn long_lines(rt: HostRuntime) -> Result<(), Fail> {
    for (parts, want) in LONG {
        let stream = spelled(rt.alloc(), parts)?;
        check(&rt, rt.alloc(), stream.as_slice(), 4096, want)?;
    }
    Ok(())
}

/// Checks that the answer is a bad line of this number.
fn check_bad(rt: &impl Abort, found: Option<Result<Batch, BatchBad>>, line: u64) {
    match found {
        Some(Err(bad)) => assert_eq!(rt; bad.line, line),
        _ => panic!(rt; "no bad line"),
    }
}

#[test]
fn a_bad_line_is_answered_again(rt: HostRuntime) -> Result<(), Fail> {
    let mut reader = BatchReader::new(rt.alloc());
    reader.feed(b"\n?\n1: .\n".as_slice())?;
    let found = reader.next(rt.alloc())?;
    check_bad(&rt, found, 2);
    let again = reader.next(rt.alloc())?;
    check_bad(&rt, again, 2);
    let last = reader.finish(rt.alloc())?;
    check_bad(&rt, last, 2);
    assert_eq!(rt; reader.lines(), 0);
    Ok(())
}
