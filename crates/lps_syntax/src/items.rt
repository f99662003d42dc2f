//! What is expected within conditions and items.
ghost use Rattle.std.specs.Prelude.{◌≡◌};
ghost use Rattle.lps_syntax.specs.Moves.{move_after_leaf, move_built, move_after_atom, move_cond, move_more_conds, move_conditions, move_item, move_more_items, move_after_item_atom, move_at, move_span, move_to, move_time, move_time_rel, move_shift, move_constant};

use crate::frame::Frame;
use crate::moved::Move;
use crate::terms::{HALF, move_rest_then_rel};
use lps_grammar::Tok;

/// The greatest number of a time constraint.
const MILLION: u64 = 1000000;

pub fn move_after_leaf(tok: &Tok) -> Move
    ensures { result ≡ move_after_leaf tok.now }
{
    match tok {
        Tok::Equal | Tok::Differ => Move::One(Frame::Term { vars: true }),
        Tok::Is => Move::Two(Frame::Unit, Frame::Rest),
        _ => move_rest_then_rel(tok),
    }
}

/// A built-in that begins with no name.
pub fn move_built(tok: &Tok) -> Move
    ensures { result ≡ move_built tok.now }
{
    match tok {
        Tok::Variable(_) => Move::One(Frame::AfterLeaf),
        Tok::Number(n) => if *n < HALF {
            Move::One(Frame::AfterLeaf)
        } else {
            Move::Refuse
        },
        Tok::Minus => Move::Two(Frame::Negative, Frame::AfterLeaf),
        Tok::Open => Move::Three(Frame::Unit, Frame::RestThenClose, Frame::RestThenRel),
        _ => Move::Refuse,
    }
}

pub fn move_after_atom(tok: &Tok) -> Move
    ensures { result ≡ move_after_atom tok.now }
{
    match tok {
        Tok::Equal | Tok::Differ => Move::One(Frame::Term { vars: true }),
        _ => Move::Pass,
    }
}

pub fn move_cond(tok: &Tok) -> Move
    ensures { result ≡ move_cond tok.now }
{
    match tok {
        Tok::Not => Move::One(Frame::Atom { vars: true }),
        Tok::Name(_) => Move::Two(Frame::Args { vars: true }, Frame::AfterAtom),
        Tok::Variable(_) | Tok::Number(_) | Tok::Minus | Tok::Open => move_built(tok),
        _ => Move::Refuse,
    }
}

pub fn move_more_conds(tok: &Tok) -> Move
    ensures { result ≡ move_more_conds tok.now }
{
    match tok {
        Tok::Comma => Move::Two(Frame::Cond, Frame::MoreConds),
        _ => Move::Pass,
    }
}

pub fn move_conditions(tok: &Tok) -> Move
    ensures { result ≡ move_conditions tok.now }
{
    match tok {
        Tok::If => Move::Two(Frame::Cond, Frame::MoreConds),
        _ => Move::Pass,
    }
}

pub fn move_item(bounds: bool, tok: &Tok) -> Move
    ensures { result ≡ move_item bounds tok.now }
{
    match tok {
        Tok::Not => Move::Two(Frame::Atom { vars: true }, Frame::At),
        Tok::Name(_) => Move::Two(Frame::Args { vars: true }, Frame::AfterItemAtom),
        Tok::Time(_) => if bounds {
            Move::Three(Frame::TimeRel, Frame::Time, Frame::Shift)
        } else {
            Move::Refuse
        },
        Tok::Variable(_) | Tok::Number(_) | Tok::Minus | Tok::Open => move_built(tok),
        _ => Move::Refuse,
    }
}

pub fn move_more_items(bounds: bool, tok: &Tok) -> Move
    ensures { result ≡ move_more_items bounds tok.now }
{
    match tok {
        Tok::Comma => Move::Two(Frame::Item { bounds }, Frame::MoreItems { bounds }),
        _ => Move::Pass,
    }
}

pub fn move_after_item_atom(tok: &Tok) -> Move
    ensures { result ≡ move_after_item_atom tok.now }
{
    match tok {
        Tok::Equal | Tok::Differ => Move::One(Frame::Term { vars: true }),
        Tok::At => Move::One(Frame::Time),
        Tok::From => Move::One(Frame::Span),
        _ => Move::Pass,
    }
}

pub fn move_at(tok: &Tok) -> Move
    ensures { result ≡ move_at tok.now }
{
    match tok {
        Tok::At => Move::One(Frame::Time),
        _ => Move::Pass,
    }
}

pub fn move_span(tok: &Tok) -> Move
    ensures { result ≡ move_span tok.now }
{
    match tok {
        Tok::Time(_) => Move::Two(Frame::To, Frame::Time),
        _ => Move::Refuse,
    }
}

pub fn move_to(tok: &Tok) -> Move
    ensures { result ≡ move_to tok.now }
{
    match tok {
        Tok::To => Move::Take,
        _ => Move::Refuse,
    }
}

pub fn move_time(tok: &Tok) -> Move
    ensures { result ≡ move_time tok.now }
{
    match tok {
        Tok::Time(_) => Move::Take,
        _ => Move::Refuse,
    }
}

pub fn move_time_rel(tok: &Tok) -> Move
    ensures { result ≡ move_time_rel tok.now }
{
    match tok {
        Tok::Less | Tok::AtMost | Tok::Equal | Tok::Greater | Tok::AtLeast => Move::Take,
        _ => Move::Refuse,
    }
}

pub fn move_shift(tok: &Tok) -> Move
    ensures { result ≡ move_shift tok.now }
{
    match tok {
        Tok::Plus | Tok::Minus => Move::One(Frame::Constant),
        _ => Move::Pass,
    }
}

pub fn move_constant(tok: &Tok) -> Move
    ensures { result ≡ move_constant tok.now }
{
    match tok {
        Tok::Number(n) => if *n <= MILLION {
            Move::Take
        } else {
            Move::Refuse
        },
        _ => Move::Refuse,
    }
}
