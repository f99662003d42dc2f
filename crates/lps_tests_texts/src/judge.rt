//! What is said of a text.
ghost use Rattle.std.specs.Prelude.{IfOk, IsTrue};
ghost use Rattle.lps_model.specs.Formed.{is_formed};

use lps_accept::accept;
use lps_formed::read_texts_are_formed;
use lps_reader::{ReadError, read_text};
use lps_terms::Text;
use std::alloc::Global;
use std::process::Abort;
use std::test::Fail;

/// Reads bytes as a text, which is then well-formed.
pub fn formed_text(alloc: Global, bytes: &[u8]) -> Result<Text, ReadError>
    ensures { IfOk result (λ text. IsTrue (is_formed text)) }
{
    read_texts_are_formed();
    read_text(alloc, bytes)
}

/// Why a text that was read is refused, or `accepted`.
fn said_of_formed(alloc: Global, text: Text) -> Result<String, Fail>
    requires { IsTrue (is_formed text) }
{
    match accept(alloc, text) {
        Ok(_) => Ok(String::from_str(alloc, "accepted")?),
        Err(error) => Ok(format!(in alloc; "{error}")?),
    }
}

/// Why a text is refused, or `accepted`.
pub fn said_of(alloc: Global, bytes: &[u8]) -> Result<String, Fail> {
    match formed_text(alloc, bytes) {
        Ok(text) => said_of_formed(alloc, text),
        Err(error) => Ok(format!(in alloc; "{error}")?),
    }
}

/// Checks what is said of a text of two parts.
pub fn check_said(
    rt: &impl Abort,
    alloc: Global,
    first: &str,
    second: &str,
    want: &str,
) -> Result<(), Fail> {
    let mut text = String::from_str(alloc, first)?;
    text.push_str(second)?;
    let said = said_of(alloc, text.as_str().as_bytes())?;
    assert_eq!(rt; said.as_str(), want, "{second}");
    Ok(())
}

/// Checks what is said of each text below the same declarations.
pub fn check_table(
    rt: &impl Abort,
    alloc: Global,
    declared: &str,
    rows: &[(&str, &str)],
) -> Result<(), Fail> {
    for (text, want) in rows {
        check_said(rt, alloc, declared, text, want)?;
    }
    Ok(())
}
