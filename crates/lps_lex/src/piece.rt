//! What stands at the front of bytes.
ghost use Rattle.std.specs.Prelude.{◌≡◌, ◌<◌, ◌-◌, length, drop, IfOk};
ghost use Rattle.lps_lex.specs.Piece.{comment_length, FitsIn, is_blank, piece_of};

use crate::number::{digits_at_front, number_piece};
use crate::sign::sign_piece;
use crate::token_kind::TokenKind;
use crate::word::{is_word_byte, word_at_front, word_piece};
use lps_terms::LexRefused;

/// What stands at the front: a line feed, or blanks or a token of so many bytes.
#[derive(Clone, Copy, Debug)]
pub enum Piece {
    LineFeed,
    Blanks(usize),
    Token(TokenKind, usize),
}

/// What stands at a place in this line. It lies within the bytes.
pub fn piece_at(bytes: &[u8], at: usize, line: u32) -> Result<Piece, LexRefused>
    requires { at < length bytes.now }
    ensures same { result ≡ piece_of line (drop at bytes.now) }
    ensures fits { IfOk result (λ piece. FitsIn (length bytes.now - at) piece) }
{
    let piece = piece_of(&bytes[at..], line);
    piece
}

/// What stands at the front. Digits with letters behind them are a number with a word behind it, since a number is
/// made of digits alone and a word does not begin with one.
fn piece_of(bytes: &[u8], line: u32) -> Result<Piece, LexRefused>
    ensures { result ≡ piece_of line bytes.now }
{
    match bytes {
        [] => Err(LexRefused::BadByte { line }),
        [first, ..] => {
            if *first == b'\n' {
                Ok(Piece::LineFeed)
            } else if is_blank(*first) {
                Ok(Piece::Blanks(1))
            } else if *first == b'%' {
                Ok(Piece::Blanks(comment_length(bytes)))
            } else if first.is_ascii_digit() {
                number_piece(digits_at_front(bytes), line)
            } else if is_word_byte(*first) {
                word_piece(word_at_front(bytes), line)
            } else {
                sign_piece(bytes, line)
            }
        }
    }
}

fn is_blank(byte: u8) -> bool
    ensures { result ≡ is_blank byte }
{
    byte == b' ' || byte == b'\t' || byte == b'\r'
}

/// How many bytes stand before the next line feed.
fn comment_length(bytes: &[u8]) -> usize
    ensures { result ≡ comment_length bytes.now }
{
    bytes.iter().take_while(|byte| **byte != b'\n').count()
}
