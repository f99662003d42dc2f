//! Numbers: runs of digits. Leading zeros are no fault, however many: only the value is bounded.
ghost use Rattle.std.specs.Prelude.{◌≡◌, ◌^◌, nat_le, if◌then◌else◌};
ghost use Rattle.std.specs.List.{take_while};
ghost use Rattle.std.specs.Char.{is_ascii_digit};
ghost use Rattle.lps_lex.specs.Piece.{number_piece, run_length, value_of};

use crate::piece::Piece;
use crate::token_kind::TokenKind;
use lps_terms::LexRefused;

/// The greatest value of a number, that of the least integer without its sign.
pub const GREATEST_NUMBER: u64 = 9223372036854775808;

/// What the digits at the front are: a token, or too large.
pub fn number_piece(digits: &[u8], line: u32) -> Result<Piece, LexRefused>
    ensures { result ≡ number_piece line digits.now }
{
    match number_value(digits) {
        Some(_) => Ok(Piece::Token(TokenKind::Number, digits.len())),
        None => Err(LexRefused::NumberTooLarge { line }),
    }
}

/// The value of a number's digits, or none where it is past 9223372036854775808.
pub fn number_value(digits: &[u8]) -> Option<u64>
    ensures { result ≡ (if nat_le (value_of digits.now) (2 ^ 63) then Some (value_of digits.now) else None) }
{
    let mut value = 0u64;
    for digit in digits {
        if value > GREATEST_NUMBER / 10 {
            return None;
        }
        value = 10 * value + u64::from(digit.saturating_sub(b'0'));
        if value > GREATEST_NUMBER {
            return None;
        }
    }
    Some(value)
}

/// The digits at the front.
#[tactic(auto, using(crate::proofs::Runs::take_run, crate::proofs::Runs::run_within))]
pub fn digits_at_front(bytes: &[u8]) -> &[u8]
    ensures { result.now ≡ take_while is_ascii_digit bytes.now }
{
    let length = digits_length(bytes);
    &bytes[..length]
}

fn digits_length(bytes: &[u8]) -> usize
    ensures { result ≡ run_length is_ascii_digit bytes.now }
{
    bytes
        .iter()
        .take_while(|byte| byte.is_ascii_digit())
        .count()
}
