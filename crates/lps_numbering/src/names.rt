ghost use Rattle.std.specs.Prelude.{◌≡◌, ◌≤◌, ◌^◌, length, nat_lt, true, IfOk, OnOk};
ghost use Rattle.std.specs.List.{position};
ghost use Rattle.std.specs.Str.{bytes_eq};
ghost use Rattle.lps_terms.specs.Names.{is_name};
ghost use Rattle.lps_lex.specs.Forms.{HasForm, IsWithinLimit};
ghost use Rattle.lps_lex.specs.Piece.{value_of};
ghost use Rattle.lps_numbering.specs.Numbers.{count_of, entered, no_names, number_of, place_of, tok_of, with_name};

use crate::fixed::{reserved_tok, sign_tok};
use lps_grammar::{Tok, Word};
use lps_lex::{TokenKind, number_value};
use lps_terms::Name;
use sqlite_items::Items;
use std::alloc::{AllocError, Global};

/// The written names of the variables and the times of a statement, each by number.
#[derive(Drop)]
pub struct Names {
    pub names: Items<Name>,
    pub times: Items<Name>,
}

impl Names {
    /// Of a statement that names nothing yet.
    pub(crate) fn new(alloc: Global) -> Names
        ensures { result ≡ no_names }
    {
        Names {
            names: Items::new(alloc),
            times: Items::new(alloc),
        }
    }

    /// Whether there are more variables and times than a statement may have.
    pub(crate) fn is_crowded(&self) -> bool
        ensures { result ≡ nat_lt 255 (count_of self.now) }
    {
        self.names.len() > MAX_NAMES || self.times.len() > MAX_NAMES - self.names.len()
    }

    /// The token for the grammar of a token of this kind and text. A variable or a time is entered.
    pub(crate) fn tok_of(
        &mut self,
        alloc: Global,
        kind: TokenKind,
        text: &[u8],
    ) -> Result<Tok, AllocError>
        requires form { HasForm kind text.now }
        requires limit { IsWithinLimit kind text.now }
        requires low { count_of self.old ≤ 255 }
        ensures tok { IfOk result (λ tok. tok ≡ tok_of self.old kind text.now) }
        ensures names { OnOk result (self.new ≡ entered self.old kind text.now) }
    {
        Ok(match kind {
            TokenKind::Name => Tok::Name(Word::new(alloc, text)?),
            TokenKind::Reserved => reserved_tok(text),
            TokenKind::Time => Tok::Time(enter(alloc, &mut self.times, text)?),
            TokenKind::Variable => Tok::Variable(enter(alloc, &mut self.names, text)?),
            TokenKind::Number => Tok::Number(value(text)),
            TokenKind::Sign => sign_tok(text),
        })
    }
}

/// How many variables and times a statement may have.
const MAX_NAMES: usize = 255;

/// The number of a name, which is entered where it has none yet.
fn enter(alloc: Global, names: &mut Items<Name>, text: &[u8]) -> Result<u32, AllocError>
    requires name { is_name text.now ≡ true }
    requires low { length names.old ≤ 255 }
    ensures number { IfOk result (λ number. number ≡ number_of names.old text.now) }
    ensures names { OnOk result (names.new ≡ with_name names.old text.now) }
{
    let number = number_of(names.as_slice(), text);
    if number >= names.len() {
        if let Some(name) = Name::new(alloc, text)? {
            names.push(name)?;
        }
    }
    Ok(number as u32)
}

fn number_of(names: &[Name], text: &[u8]) -> usize
    ensures same { result ≡ number_of names.now text.now }
    ensures within { result ≤ length names.now }
{
    if text == b"_".as_slice() {
        names.len()
    } else {
        place_of(names, text)
    }
}

fn place_of(names: &[Name], text: &[u8]) -> usize
    ensures same { result ≡ place_of names.now text.now }
    ensures within { result ≤ length names.now }
{
    match first_place(names, text) {
        Some(place) => place,
        None => names.len(),
    }
}

fn first_place(names: &[Name], text: &[u8]) -> Option<usize>
    ensures { result ≡ position (λ name. bytes_eq name text.now) names.now }
{
    names.iter().position(|name| name.bytes() == text)
}

fn value(digits: &[u8]) -> u64
    requires { value_of digits.now ≤ 2 ^ 63 }
    ensures { result ≡ value_of digits.now }
{
    match number_value(digits) {
        Some(value) => value,
        None => 0,
    }
}
