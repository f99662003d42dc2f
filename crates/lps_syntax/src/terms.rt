//! What is expected within terms and expressions.
ghost use Rattle.std.specs.Prelude.{◌≡◌};
ghost use Rattle.lps_syntax.specs.Moves.{move_atom, move_args, move_terms, move_leaf, move_term, move_negative, move_unit, move_rest, move_rest_then_rel, move_rest_then_close};

use crate::frame::Frame;
use crate::moved::Move;
use lps_grammar::Tok;

/// The first number that is no positive integer of 64 bits.
pub const HALF: u64 = 9223372036854775808;

pub fn move_atom(vars: bool, tok: &Tok) -> Move
    ensures { result ≡ move_atom vars tok.now }
{
    match tok {
        Tok::Name(_) => Move::One(Frame::Args { vars }),
        _ => Move::Refuse,
    }
}

pub fn move_args(vars: bool, tok: &Tok) -> Move
    ensures { result ≡ move_args vars tok.now }
{
    match tok {
        Tok::Open => Move::Two(Frame::Term { vars }, Frame::Terms { vars, more: 63 }),
        _ => Move::Pass,
    }
}

pub fn move_terms(vars: bool, more: u32, tok: &Tok) -> Move
    ensures { result ≡ move_terms vars more tok.now }
{
    match tok {
        Tok::Close => Move::Take,
        Tok::Comma => if more == 0 {
            Move::Refuse
        } else {
            Move::Two(
                Frame::Term { vars },
                Frame::Terms {
                    vars,
                    more: more - 1,
                },
            )
        },
        _ => Move::Refuse,
    }
}

/// A variable or an integer.
pub fn move_leaf(vars: bool, tok: &Tok) -> Move
    ensures { result ≡ move_leaf vars tok.now }
{
    match tok {
        Tok::Variable(_) => if vars { Move::Take } else { Move::Refuse },
        Tok::Number(n) => if *n < HALF { Move::Take } else { Move::Refuse },
        Tok::Minus => Move::One(Frame::Negative),
        _ => Move::Refuse,
    }
}

pub fn move_term(vars: bool, tok: &Tok) -> Move
    ensures { result ≡ move_term vars tok.now }
{
    match tok {
        Tok::Name(_) => Move::One(Frame::Args { vars }),
        _ => move_leaf(vars, tok),
    }
}

pub fn move_negative(tok: &Tok) -> Move
    ensures { result ≡ move_negative tok.now }
{
    match tok {
        Tok::Number(n) => if *n <= HALF { Move::Take } else { Move::Refuse },
        _ => Move::Refuse,
    }
}

pub fn move_unit(tok: &Tok) -> Move
    ensures { result ≡ move_unit tok.now }
{
    match tok {
        Tok::Open => Move::Two(Frame::Unit, Frame::RestThenClose),
        _ => move_leaf(true, tok),
    }
}

pub fn move_rest(tok: &Tok) -> Move
    ensures { result ≡ move_rest tok.now }
{
    if tok.is_op() {
        Move::Two(Frame::Unit, Frame::Rest)
    } else {
        Move::Pass
    }
}

pub fn move_rest_then_rel(tok: &Tok) -> Move
    ensures { result ≡ move_rest_then_rel tok.now }
{
    if tok.is_op() {
        Move::Two(Frame::Unit, Frame::RestThenRel)
    } else {
        if tok.is_rel() {
            Move::Two(Frame::Unit, Frame::Rest)
        } else {
            Move::Refuse
        }
    }
}

pub fn move_rest_then_close(tok: &Tok) -> Move
    ensures { result ≡ move_rest_then_close tok.now }
{
    match tok {
        Tok::Close => Move::Take,
        _ => if tok.is_op() {
            Move::Two(Frame::Unit, Frame::RestThenClose)
        } else {
            Move::Refuse
        },
    }
}
