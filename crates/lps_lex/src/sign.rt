//! Signs, of one byte or of two.
ghost use Rattle.std.specs.Prelude.{◌≡◌};
ghost use Rattle.lps_lex.specs.Piece.{begins_long_sign, begins_short_sign, sign_piece};

use crate::piece::Piece;
use crate::token_kind::TokenKind;
use lps_terms::LexRefused;

/// The longest sign at the front. A byte that begins none begins no token.
pub fn sign_piece(bytes: &[u8], line: u32) -> Result<Piece, LexRefused>
    ensures { result ≡ sign_piece line bytes.now }
{
    if begins_long_sign(bytes) {
        Ok(Piece::Token(TokenKind::Sign, 2))
    } else if begins_short_sign(bytes) {
        Ok(Piece::Token(TokenKind::Sign, 1))
    } else {
        Err(LexRefused::BadByte { line })
    }
}

fn begins_long_sign(bytes: &[u8]) -> bool
    ensures { result ≡ begins_long_sign bytes.now }
{
    match bytes {
        [first, second, ..] => {
            (*first == b'\\' && *second == b'=')
                || (*first == b'=' && *second == b'<')
                || (*first == b'>' && *second == b'=')
        }
        _ => false,
    }
}

fn begins_short_sign(bytes: &[u8]) -> bool
    ensures { result ≡ begins_short_sign bytes.now }
{
    match bytes {
        [first, ..] => b"(),./+-*=<>:".as_slice().contains(first),
        [] => false,
    }
}
