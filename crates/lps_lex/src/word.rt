//! Words: runs of letters, digits and `_` that begin with no digit.
ghost use Rattle.std.specs.Prelude.{◌≡◌};
ghost use Rattle.std.specs.List.{list_all, take_while};
ghost use Rattle.std.specs.Char.{is_ascii_digit};
ghost use Rattle.lps_terms.specs.Names.{begins_low, is_word_byte};
ghost use Rattle.lps_lex.specs.Piece.{is_time, run_length, word_kind, word_piece};

use crate::piece::Piece;
use crate::token_kind::TokenKind;
use lps_terms::{LexRefused, is_proper_name};

pub const LONGEST_WORD: usize = 64;

/// What the word at the front is: a token, or too long.
pub fn word_piece(word: &[u8], line: u32) -> Result<Piece, LexRefused>
    ensures { result ≡ word_piece line word.now }
{
    if word.len() <= LONGEST_WORD {
        Ok(Piece::Token(word_kind(word), word.len()))
    } else {
        Err(LexRefused::NameTooLong { line })
    }
}

/// The kind of a word that is not too long: one that begins low is a name, or else a word of the language.
fn word_kind(word: &[u8]) -> TokenKind
    ensures { result ≡ word_kind word.now }
{
    if is_proper_name(word) {
        TokenKind::Name
    } else if begins_low(word) {
        TokenKind::Reserved
    } else if is_time(word) {
        TokenKind::Time
    } else {
        TokenKind::Variable
    }
}

fn begins_low(word: &[u8]) -> bool
    ensures { result ≡ begins_low word.now }
{
    match word {
        [first, ..] => *first >= b'a' && *first <= b'z',
        [] => false,
    }
}

fn is_time(word: &[u8]) -> bool
    ensures { result ≡ is_time word.now }
{
    match word {
        [first, rest @ ..] => *first == b'T' && all_digits(rest),
        [] => false,
    }
}

fn all_digits(bytes: &[u8]) -> bool
    ensures { result ≡ list_all is_ascii_digit bytes.now }
{
    bytes.iter().all(|byte| byte.is_ascii_digit())
}

/// The word at the front, of no bytes where there is none.
#[tactic(auto, using(crate::proofs::Runs::take_run, crate::proofs::Runs::run_within))]
pub fn word_at_front(bytes: &[u8]) -> &[u8]
    ensures { result.now ≡ take_while is_word_byte bytes.now }
{
    let length = word_length(bytes);
    &bytes[..length]
}

fn word_length(bytes: &[u8]) -> usize
    ensures { result ≡ run_length is_word_byte bytes.now }
{
    bytes.iter().take_while(|byte| is_word_byte(**byte)).count()
}

pub fn is_word_byte(byte: u8) -> bool
    ensures { result ≡ is_word_byte byte }
{
    (byte >= b'a' && byte <= b'z')
        || (byte >= b'A' && byte <= b'Z')
        || (byte >= b'0' && byte <= b'9')
        || byte == b'_'
}
