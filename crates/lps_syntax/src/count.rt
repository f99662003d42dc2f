//! What is counted at each token: the symbols of the part that it stands in, and the events begun.
ghost use Rattle.std.specs.Prelude.{◌≡◌, ◌≤◌};
ghost use Rattle.lps_grammar.specs.declared.tok.Tok.{Tok};
ghost use Rattle.lps_syntax.specs.Counts.{events_after, symbols_after, symbols_at_first, symbols_at_start};

use crate::frame::Frame;
use lps_grammar::Tok;

/// The greatest number of symbols of an atom, a side or an expression.
pub const MAX_SYMBOLS: u32 = 1024;

/// The greatest number of events of a line.
pub const MAX_EVENTS: u32 = 1000;

fn symbols_at_start(tok: &Tok) -> u32
    ensures { result ≡ symbols_at_start tok.now }
{
    match tok {
        Tok::Name(_) => 1,
        _ => 0,
    }
}

fn symbols_at_first(tok: &Tok) -> u32
    ensures { result ≡ symbols_at_first tok.now }
{
    match tok {
        Tok::Not | Tok::Time(_) => 0,
        _ => 1,
    }
}

/// The symbols of the part after a token that the phrase takes, where it had `before` of them.
pub fn symbols_after(taker: Frame, before: u32, tok: &Tok) -> u32
    requires { before ≤ 1024 }
    ensures { result ≡ symbols_after taker before tok.now }
{
    match taker {
        Frame::Text => symbols_at_start(tok),
        Frame::Atom { vars: _ } | Frame::Events | Frame::Event => 1,
        Frame::Args { vars: _ } | Frame::Terms { vars: _, more: _ } | Frame::Negative => before,
        Frame::Term { vars: _ } | Frame::Unit | Frame::Rest => before + 1,
        Frame::Cond | Frame::Item { bounds: _ } => symbols_at_first(tok),
        Frame::AfterLeaf | Frame::RestThenRel => if tok.is_op() { before + 1 } else { 0 },
        Frame::RestThenClose => if tok.is_op() { before + 1 } else { before },
        _ => 0,
    }
}

/// The events begun after a token that the phrase takes, where there were `before` of them.
pub fn events_after(taker: Frame, before: u32) -> u32
    requires { before ≤ 1000 }
    ensures { (tok : Tok) → result ≡ events_after taker before tok }
{
    match taker {
        Frame::Events | Frame::Event => before + 1,
        _ => before,
    }
}
