//! Reserved words and signs, which are told apart by their texts.
ghost use Rattle.std.specs.Prelude.{◌≡◌, drop};
ghost use Rattle.lps_numbering.specs.Fixed.{reserved_tok, sign_tok, signs, tok_in, words};
ghost use Rattle.lps_grammar.specs.declared.tok.Tok.TheVariants.{Colon, Mod};

use lps_grammar::Tok;

/// The token of a reserved word.
pub fn reserved_tok(text: &[u8]) -> Tok
    ensures { result ≡ reserved_tok text.now }
{
    if text == b"if".as_slice() {
        Tok::If
    } else if text == b"then".as_slice() {
        Tok::Then
    } else if text == b"or".as_slice() {
        Tok::Or
    } else if text == b"not".as_slice() {
        Tok::Not
    } else if text == b"false".as_slice() {
        Tok::False
    } else if text == b"fluent".as_slice() {
        Tok::Fluent
    } else if text == b"event".as_slice() {
        Tok::Event
    } else if text == b"action".as_slice() {
        Tok::Action
    } else if text == b"timeless".as_slice() {
        Tok::Timeless
    } else if text == b"derived".as_slice() {
        Tok::Derived
    } else {
        later_reserved_tok(text)
    }
}

fn later_reserved_tok(text: &[u8]) -> Tok
    ensures { result ≡ tok_in (drop 10 words) Mod text.now }
{
    if text == b"macro".as_slice() {
        Tok::Macro
    } else if text == b"initially".as_slice() {
        Tok::Initially
    } else if text == b"initiates".as_slice() {
        Tok::Initiates
    } else if text == b"terminates".as_slice() {
        Tok::Terminates
    } else if text == b"at".as_slice() {
        Tok::At
    } else if text == b"from".as_slice() {
        Tok::From
    } else if text == b"to".as_slice() {
        Tok::To
    } else if text == b"is".as_slice() {
        Tok::Is
    } else if text == b"div".as_slice() {
        Tok::Div
    } else {
        Tok::Mod
    }
}

/// The token of a sign.
pub fn sign_tok(text: &[u8]) -> Tok
    ensures { result ≡ sign_tok text.now }
{
    if text == b"(".as_slice() {
        Tok::Open
    } else if text == b")".as_slice() {
        Tok::Close
    } else if text == b",".as_slice() {
        Tok::Comma
    } else if text == b".".as_slice() {
        Tok::Dot
    } else if text == b"/".as_slice() {
        Tok::Slash
    } else if text == b"+".as_slice() {
        Tok::Plus
    } else if text == b"-".as_slice() {
        Tok::Minus
    } else if text == b"*".as_slice() {
        Tok::Star
    } else {
        relation_tok(text)
    }
}

fn relation_tok(text: &[u8]) -> Tok
    ensures { result ≡ tok_in (drop 8 signs) Colon text.now }
{
    if text == b"=".as_slice() {
        Tok::Equal
    } else if text == b"\\=".as_slice() {
        Tok::Differ
    } else if text == b"<".as_slice() {
        Tok::Less
    } else if text == b"=<".as_slice() {
        Tok::AtMost
    } else if text == b">".as_slice() {
        Tok::Greater
    } else if text == b">=".as_slice() {
        Tok::AtLeast
    } else {
        Tok::Colon
    }
}
