//! The program `lps`: runs the words of its command line over files, standard input and standard output.
//!
//! It stands on the top call and makes the three real objects of the outside for it; it knows nothing of what a
//! text means. The theorem is a clause of that call.
#![tactic(auto)]

mod host;

use host::{HostDesk, HostSource, HostTexts};
use lps_run::{Answer, UsageKind, lps};
use std::io::ErrorKind;
use std::process::ExitCode;
use std::rt::Env;
use std::{env, io};

/// The words after the program's name. A word that is no UTF-8 is no word of a command.
fn words_of<R: AllocGlobal + Env>(rt: &R) -> Result<Vec<String>, Answer> {
    let args = match env::args(rt) {
        Ok(args) => args,
        Err(error) => return Err(refused(error.kind())),
    };
    let mut words = Vec::new(rt.alloc());
    for word in args.skip(1) {
        if words.push(word).is_err() {
            return Err(Answer::NoMemory);
        }
    }
    Ok(words)
}

/// The answer where the words cannot be had.
fn refused(kind: ErrorKind) -> Answer {
    match kind {
        ErrorKind::InvalidData => Answer::Usage(UsageKind::Words),
        _ => Answer::NoMemory,
    }
}

fn main(rt: HostRuntime) -> ExitCode {
    let mut texts = HostTexts::new(&rt);
    let mut events = HostSource::new(rt.reader());
    let mut desk = HostDesk::new(io::writer(&rt));
    let answer = match words_of(&rt) {
        Ok(words) => lps(
            rt.alloc(),
            words.as_slice(),
            &mut texts,
            &mut events,
            &mut desk,
        ),
        Err(answer) => answer,
    };
    let code = answer.code();
    if code > 1 {
        // Where standard error is closed, the status tells the answer alone.
        let _said = eprintln!(rt; "lps: {answer}");
    }
    ExitCode::from(code)
}
