//! Does one task as often as it is told, so that a script can measure how long it takes.
//!
//! It stands on the crates that it measures: bindings, and the search for answers by clauses and facts. It knows nothing of
//! streams or of the program `lps`.
#![tactic(auto)]

mod solving;
mod terms;
mod unifying;

use lps_terms::{Values, print_term};
use solving::answers_of_last;
use std::alloc::{AllocError, Global};
use std::env;
use std::io::{self, Read};
use std::process::ExitCode;
use unifying::{unify_doubling, unify_large};

/// Does the task that the first word names. `large COUNT` unifies two terms of 1,024 symbols so many times, and `doubling
/// COUNT` unifies lists of so many variables and pairs, whose solution would be exponential when written out; both print
/// how often unification succeeded. `answers LIMIT` reads a text of at most so many bytes on standard input, and prints the
/// answers to the conditions of its last clause without arguments over its initial facts, each on a line. Other words, and a
/// text that is not accepted, give the status 2.
fn main(rt: HostRuntime) -> io::Result<ExitCode> {
    let mut words = Vec::new(rt.alloc());
    for word in env::args(&rt)?.skip(1) {
        words.push(word).map_err(AllocError::from)?;
    }
    let [task, count] = words.as_slice() else {
        return Ok(ExitCode::from(2));
    };
    let Ok(count) = count.as_str().parse::<u32>() else {
        return Ok(ExitCode::from(2));
    };
    match task.as_str() {
        "large" => {
            let unified = unify_large(rt.alloc(), count)?;
            println!(rt; "{unified}")?;
        }
        "doubling" => {
            let unified = unify_doubling(rt.alloc(), count)?;
            println!(rt; "{unified}")?;
        }
        "answers" => {
            let mut bytes = Vec::new(rt.alloc());
            rt.reader().take(u64::from(count)).read_to_end(&mut bytes)?;
            match answers_of_last(rt.alloc(), bytes.as_slice())? {
                Some(answers) => {
                    for answer in answers.as_slice() {
                        let line = line_of(rt.alloc(), answer)?;
                        println!(rt; "{line}")?;
                    }
                }
                None => return Ok(ExitCode::from(2)),
            }
        }
        _ => return Ok(ExitCode::from(2)),
    }
    Ok(ExitCode::from(0))
}

/// The values of an answer with commas between.
fn line_of(alloc: Global, answer: &Values) -> Result<String, AllocError> {
    let mut bytes = Vec::new(alloc);
    for value in answer.0.as_slice() {
        if !bytes.is_empty() {
            bytes.extend_from_slice(b", ")?;
        }
        print_term(value, &mut bytes)?;
    }
    Ok(String::from_utf8_lossy(alloc, bytes.as_slice())?)
}
