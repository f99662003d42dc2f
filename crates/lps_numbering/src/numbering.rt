//! From the lexer's tokens to those of the grammar.
ghost use Rattle.std.specs.Prelude.{◌≡◌, ◌≤◌, ◌++◌, ◌∷◌, [], All, IfOk, OnOk, if◌then◌else◌};
ghost use Rattle.lps_lex.specs.Forms.{HasForm, IsWithinLimit};
ghost use Rattle.lps_lex.specs.Spans.{IsTokenOf};
ghost use Rattle.lps_numbering.specs.Numbers.{count_of, crowded_of, entered, is_full_stop, no_names, statements_of, tok_of, toks_of, up_to};

use crate::names::Names;
use crate::numbered::Numbered;
use lps_grammar::Tok;
use lps_lex::{Token, TokenKind};
use std::alloc::{AllocError, Global};
use std::mem;

/// The tokens of some bytes as those of the grammar, with a number for each variable and each time: by first occurrence
/// in its statement, variables and times apart, and each `_` a variable of its own. The first token that is a 256th
/// different variable or time of its statement is numbered still, and what follows it is left out. The only error is
/// that memory ran out.
pub fn number(alloc: Global, bytes: &[u8], tokens: &[Token]) -> Result<Numbered, AllocError>
    requires { All (IsTokenOf bytes.now) tokens.now }
    ensures crowded { IfOk result (λ found. found.crowded ≡ crowded_of bytes.now tokens.now) }
    ensures toks { IfOk result (λ found. found.toks.items ≡ toks_of bytes.now (up_to found.crowded tokens.now)) }
    ensures statements { IfOk result (λ found. found.statements.items ≡ statements_of bytes.now (up_to found.crowded tokens.now)) }
{
    let mut progress = Progress::new(alloc);
    for (i, token) in tokens.iter().enumerate() {
        progress.take_token(alloc, token.kind, token.text(bytes))?;
        if progress.names.is_crowded() {
            return progress.ended(Some(i));
        }
    }
    progress.ended(None)
}

/// What is made of the tokens so far.
#[derive(Drop)]
struct Progress {
    toks: Vec<Tok>,
    statements: Vec<Names>,
    /// Of the statement that has not ended yet.
    names: Names,
}

impl Progress {
    fn new(alloc: Global) -> Progress
        ensures toks { result.toks.items ≡ [] }
        ensures statements { result.statements.items ≡ [] }
        ensures names { result.names ≡ no_names }
    {
        Progress {
            toks: Vec::new(alloc),
            statements: Vec::new(alloc),
            names: Names::new(alloc),
        }
    }

    fn take_token(&mut self, alloc: Global, kind: TokenKind, text: &[u8]) -> Result<(), AllocError>
        requires form { HasForm kind text.now }
        requires limit { IsWithinLimit kind text.now }
        requires low { count_of self.old.names ≤ 255 }
        ensures toks { OnOk result (self.new.toks.items ≡ self.old.toks.items ++ tok_of self.old.names kind text.now ∷ []) }
        ensures statements { OnOk result (self.new.statements.items ≡ self.old.statements.items ++ (if is_full_stop kind text.now then self.old.names ∷ [] else [])) }
        ensures names { OnOk result (self.new.names ≡ (if is_full_stop kind text.now then no_names else entered self.old.names kind text.now)) }
    {
        let tok = self.names.tok_of(alloc, kind, text)?;
        self.toks.push(tok)?;
        if is_full_stop(kind, text) {
            let names = mem::replace(&mut self.names, Names::new(alloc));
            self.statements.push(names)?;
        }
        Ok(())
    }

    fn ended(self, crowded: Option<usize>) -> Result<Numbered, AllocError>
        ensures crowded { IfOk result (λ found. found.crowded ≡ crowded) }
        ensures toks { IfOk result (λ found. found.toks.items ≡ self.toks.items) }
        ensures statements { IfOk result (λ found. found.statements.items ≡ self.statements.items ++ self.names ∷ []) }
    {
        let Progress {
            toks,
            mut statements,
            names,
        } = self;
        statements.push(names)?;
        Ok(Numbered {
            toks,
            statements,
            crowded,
        })
    }
}

fn is_full_stop(kind: TokenKind, text: &[u8]) -> bool
    ensures { result ≡ is_full_stop kind text.now }
{
    match kind {
        TokenKind::Sign => text == b".".as_slice(),
        _ => false,
    }
}
