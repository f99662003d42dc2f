//! From the bytes to the tokens.
ghost use Rattle.std.specs.Prelude.{◌≡◌, ◌≤◌, length, All, IfOk, OnOk, IsErrOf};
ghost use Rattle.lps_lex.specs.Lexing.{lexed};
ghost use Rattle.lps_lex.specs.Spans.{AreApart, IsTokenOf};

use crate::lex_error::LexError;
use crate::lexed::Lexed;
use crate::piece::{Piece, piece_at};
use crate::token::Token;
use lps_terms::LexRefused;
use std::alloc::{AllocError, Global};

/// The tokens before the first fault of the bytes, and the fault if there is one. The only error is that memory ran out.
pub fn lex(alloc: Global, bytes: &[u8]) -> Result<Lexed, AllocError>
    requires { length bytes.now ≤ 4294967294 }
    ensures tokens { IfOk result (λ found. found.tokens.items ≡ (lexed bytes.now).tokens) }
    ensures fault { IfOk result (λ found. found.fault ≡ (lexed bytes.now).fault) }

    // What follows for each token, and for what stands between them.
    ensures spans { IfOk result (λ found. All (IsTokenOf bytes.now) found.tokens.items) }
    ensures apart { IfOk result (λ found. AreApart bytes.now 0 found.tokens.items) }
{
    let mut tokens = Vec::new(alloc);
    let mut at = 0usize;
    let mut line = 1u32;
    while at < bytes.len() {
        match piece_at(bytes, at, line) {
            Ok(Piece::LineFeed) => {
                line += 1;
                at += 1;
            }
            Ok(Piece::Blanks(length)) => at += length,
            Ok(Piece::Token(kind, length)) => {
                tokens.push(Token {
                    kind,
                    start: at,
                    end: at + length,
                    line,
                })?;
                at += length;
            }
            Err(refused) => {
                return Ok(Lexed {
                    tokens,
                    fault: Some(refused),
                });
            }
        }
    }
    Ok(Lexed {
        tokens,
        fault: None,
    })
}

/// The tokens of the bytes, where they have no fault. `Refused` comes exactly where they have one, and with the first.
pub fn tokens(alloc: Global, bytes: &[u8]) -> Result<Vec<Token>, LexError>
    requires { length bytes.now ≤ 4294967294 }
    ensures tokens { IfOk result (λ found. found.items ≡ (lexed bytes.now).tokens) }
    ensures whole { OnOk result ((lexed bytes.now).fault ≡ None) }
    ensures spans { IfOk result (λ found. All (IsTokenOf bytes.now) found.items) }
    ensures apart { IfOk result (λ found. AreApart bytes.now 0 found.items) }
    ensures refused { (refused : LexRefused) → IsErrOf result (LexError.Refused refused) → (lexed bytes.now).fault ≡ Some refused }
{
    let found = lex(alloc, bytes)?;
    match found.fault {
        None => Ok(found.tokens),
        Some(refused) => Err(LexError::Refused(refused)),
    }
}
