//! A call of `lps` on an outside in memory, and what is expected of it.
use lps_memworld::{MemDesk, MemSource, MemTexts};
use lps_run::{Answer, lps};
use std::alloc::{AllocError, Global};
use std::process::Abort;
use std::test::Fail;

/// The text `t` and the stream, how the stream is cut, which calls to the outside fail, and what is expected.
#[derive(Clone, Copy)]
pub struct Call<'a> {
    pub text: &'a str,
    pub stream: &'a str,
    /// The most bytes that a read takes.
    pub piece: usize,
    pub text_fails: &'a [u64],
    pub read_fails: &'a [u64],
    pub print_fails: &'a [u64],
    pub code: u8,
    /// What is written of the answer.
    pub line: &'a str,
    pub printed: &'a str,
}

/// An empty text on an empty stream.
pub const PLAIN: Call<'static> = Call {
    text: "",
    stream: "",
    piece: 16384,
    text_fails: &[],
    read_fails: &[],
    print_fails: &[],
    code: 0,
    line: "done",
    printed: "cycle 0\nstate\ndone\n",
};

fn text_of(alloc: Global, call: &Call<'_>) -> Result<MemTexts, AllocError> {
    let bytes = Vec::from_slice(alloc, call.text.as_bytes())?;
    let texts = vec![in alloc; (String::from_str(alloc, "t")?, bytes)]?;
    Ok(MemTexts::new(texts, Vec::from_slice(alloc, call.text_fails)?))
}

fn stream_of(alloc: Global, call: &Call<'_>) -> Result<MemSource, AllocError> {
    let bytes = Vec::from_slice(alloc, call.stream.as_bytes())?;
    let fails = Vec::from_slice(alloc, call.read_fails)?;
    Ok(MemSource::new(bytes, call.piece, fails))
}

/// The answer to these words, and what is printed.
fn answer_to(
    alloc: Global,
    words: &[&str],
    call: &Call<'_>,
) -> Result<(Answer, MemDesk), AllocError> {
    let mut list = Vec::new(alloc);
    for word in words {
        list.push(String::from_str(alloc, word)?)?;
    }
    let mut texts = text_of(alloc, call)?;
    let mut events = stream_of(alloc, call)?;
    let mut desk = MemDesk::new(alloc, Vec::from_slice(alloc, call.print_fails)?);
    let answer = lps(alloc, list.as_slice(), &mut texts, &mut events, &mut desk);
    Ok((answer, desk))
}

/// Makes the call with these words, and checks what is printed and answered.
pub fn check_words(
    rt: &impl Abort,
    alloc: Global,
    words: &[&str],
    call: &Call<'_>,
) -> Result<(), Fail> {
    let (answer, desk) = answer_to(alloc, words, call)?;
    assert_eq!(rt; desk.printed(), call.printed.as_bytes(), "{}", call.text);
    assert_eq!(rt; answer.code(), call.code, "{}", call.text);
    let line = answer.to_string(alloc)?;
    assert_eq!(rt; line.as_str(), call.line, "{}", call.text);
    Ok(())
}

/// Makes the call `run t`.
pub fn check_run(rt: &impl Abort, alloc: Global, call: &Call<'_>) -> Result<(), Fail> {
    check_words(rt, alloc, &["run", "t"], call)
}

/// Makes the call `check t`.
pub fn check_check(rt: &impl Abort, alloc: Global, call: &Call<'_>) -> Result<(), Fail> {
    check_words(rt, alloc, &["check", "t"], call)
}
