//! What is expected within lines of events.
ghost use Rattle.std.specs.Prelude.{◌≡◌};
ghost use Rattle.lps_syntax.specs.Moves.{move_line, move_colon, move_events, move_event, move_more_events, move_line_end};

use crate::frame::Frame;
use crate::moved::Move;
use lps_grammar::Tok;

pub fn move_line(tok: &Tok) -> Move
    ensures { result ≡ move_line tok.now }
{
    match tok {
        Tok::Number(_) => Move::Three(Frame::Colon, Frame::Events, Frame::LineEnd),
        _ => Move::Refuse,
    }
}

pub fn move_colon(tok: &Tok) -> Move
    ensures { result ≡ move_colon tok.now }
{
    match tok {
        Tok::Colon => Move::Take,
        _ => Move::Refuse,
    }
}

pub fn move_events(tok: &Tok) -> Move
    ensures { result ≡ move_events tok.now }
{
    match tok {
        Tok::Name(_) => Move::Two(Frame::Args { vars: false }, Frame::MoreEvents),
        _ => Move::Pass,
    }
}

pub fn move_event(tok: &Tok) -> Move
    ensures { result ≡ move_event tok.now }
{
    match tok {
        Tok::Name(_) => Move::One(Frame::Args { vars: false }),
        _ => Move::Refuse,
    }
}

pub fn move_more_events(tok: &Tok) -> Move
    ensures { result ≡ move_more_events tok.now }
{
    match tok {
        Tok::Comma => Move::Two(Frame::Event, Frame::MoreEvents),
        _ => Move::Pass,
    }
}

pub fn move_line_end(tok: &Tok) -> Move
    ensures { result ≡ move_line_end tok.now }
{
    match tok {
        Tok::Dot => Move::Take,
        _ => Move::Refuse,
    }
}
