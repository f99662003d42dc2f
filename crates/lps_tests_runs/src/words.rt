//! Words that are no command, which is told before a text or a stream is read.
use crate::call::{Call, PLAIN, check_words};
use std::test::Fail;

const UNREAD: Call<'static> = Call {
    text_fails: &[1],
    read_fails: &[1],
    code: 2,
    line: "usage",
    printed: "",
    ..PLAIN
};

#[test]
fn words(rt: HostRuntime) -> Result<(), Fail> {
    let no_commands: [&[&str]; 8] = [
        &[],
        &["run"],
        &["help", "t"],
        &["run", ""],
        &["run", "-t"],
        &["run", "t", "u"],
        &["check"],
        &["check", "-t"],
    ];
    for words in no_commands {
        check_words(&rt, rt.alloc(), words, &UNREAD)?;
    }
    Ok(())
}
