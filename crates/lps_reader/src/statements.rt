ghost use Rattle.std.specs.Prelude.{◌≡◌, map, IfOk};
ghost use Rattle.lps_lex.specs.declared.token.Token.{Token as Lexed};
ghost use Rattle.lps_reader.specs.Made.{line_of as line_of_place, statements_made};

use lps_lex::Token;
use lps_numbering::Names;
use lps_terms::{Body, Statement};
use sqlite_items::Items;
use std::alloc::{AllocError, Global};

/// The line of each token.
pub fn lines_of(alloc: Global, tokens: &[Token]) -> Result<Vec<u32>, AllocError>
    ensures { IfOk result (λ lines. lines.items ≡ map (λ (token : Lexed). token.line) tokens.now) }
{
    let mut lines = Vec::with_capacity(alloc, tokens.len())?;
    for token in tokens {
        lines.push(token.line)?;
    }
    Ok(lines)
}

fn line_of(lines: &[u32], place: usize) -> u32
    ensures { result ≡ line_of_place lines.now place }
{
    match lines.get(place) {
        Some(line) => *line,
        None => 0,
    }
}

/// The statements of what they say and of their names, in order: each is in the line of its first token, whose place is given
/// with what it says.
pub fn statements(
    alloc: Global,
    lines: &[u32],
    names: Vec<Names>,
    bodies: Vec<(usize, Body)>,
) -> Result<Items<Statement>, AllocError>
    ensures { IfOk result (λ found. found ≡ statements_made (line_of_place lines.now) bodies.items names.items) }
{
    let mut statements = Items::new(alloc);
    let mut names = names.into_iter();
    for (place, body) in bodies {
        let Some(Names { names, times }) = names.next() else {
            return Ok(statements);
        };
        statements.push(Statement {
            line: line_of(lines, place),
            names,
            times,
            body,
        })?;
    }
    Ok(statements)
}
