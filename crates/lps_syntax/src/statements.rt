//! What is expected within statements.
ghost use Rattle.std.specs.Prelude.{◌≡◌};
ghost use Rattle.lps_syntax.specs.Moves.{move_text, move_end, move_decl, move_slash, move_arity, move_more_decls, move_moded, move_mode_list, move_modes, move_more_modes, move_more_moded, move_more_atoms, move_head, move_antecedent, move_alternatives, move_macro_body};

use crate::frame::Frame;
use crate::items::move_conditions;
use crate::moved::Move;
use lps_grammar::Tok;

pub fn move_text(tok: &Tok) -> Move
    ensures { result ≡ move_text tok.now }
{
    match tok {
        Tok::Fluent | Tok::Event | Tok::Action => Move::Three(
            Frame::Decl,
            Frame::MoreDecls,
            Frame::End,
        ),
        Tok::Timeless | Tok::Derived | Tok::Macro => Move::Three(
            Frame::Moded,
            Frame::MoreModed,
            Frame::End,
        ),
        Tok::Initially => Move::Three(Frame::Atom { vars: true }, Frame::MoreAtoms, Frame::End),
        Tok::False => Move::Three(
            Frame::Item { bounds: false },
            Frame::MoreItems { bounds: false },
            Frame::End,
        ),
        Tok::If => Move::Three(Frame::Item { bounds: true }, Frame::Antecedent, Frame::End),
        Tok::Name(_) => Move::Three(Frame::Args { vars: true }, Frame::Head, Frame::End),
        _ => Move::Refuse,
    }
}

pub fn move_end(tok: &Tok) -> Move
    ensures { result ≡ move_end tok.now }
{
    match tok {
        Tok::Dot => Move::One(Frame::Text),
        _ => Move::Refuse,
    }
}

pub fn move_decl(tok: &Tok) -> Move
    ensures { result ≡ move_decl tok.now }
{
    match tok {
        Tok::Name(_) => Move::Two(Frame::Slash, Frame::Arity),
        _ => Move::Refuse,
    }
}

pub fn move_slash(tok: &Tok) -> Move
    ensures { result ≡ move_slash tok.now }
{
    match tok {
        Tok::Slash => Move::Take,
        _ => Move::Refuse,
    }
}

pub fn move_arity(tok: &Tok) -> Move
    ensures { result ≡ move_arity tok.now }
{
    match tok {
        Tok::Number(n) => if *n <= 64 { Move::Take } else { Move::Refuse },
        _ => Move::Refuse,
    }
}

pub fn move_more_decls(tok: &Tok) -> Move
    ensures { result ≡ move_more_decls tok.now }
{
    match tok {
        Tok::Comma => Move::Two(Frame::Decl, Frame::MoreDecls),
        _ => Move::Pass,
    }
}

pub fn move_moded(tok: &Tok) -> Move
    ensures { result ≡ move_moded tok.now }
{
    match tok {
        Tok::Name(_) => Move::One(Frame::ModeList),
        _ => Move::Refuse,
    }
}

pub fn move_mode_list(tok: &Tok) -> Move
    ensures { result ≡ move_mode_list tok.now }
{
    match tok {
        Tok::Open => Move::One(Frame::Modes {
            more: 63,
            free: true,
        }),
        _ => Move::Pass,
    }
}

pub fn move_modes(more: u32, free: bool, tok: &Tok) -> Move
    ensures { result ≡ move_modes more free tok.now }
{
    match tok {
        Tok::Plus | Tok::Minus => Move::One(Frame::MoreModes { more, free }),
        Tok::Star => if free {
            Move::One(Frame::MoreModes { more, free: false })
        } else {
            Move::Refuse
        },
        _ => Move::Refuse,
    }
}

pub fn move_more_modes(more: u32, free: bool, tok: &Tok) -> Move
    ensures { result ≡ move_more_modes more free tok.now }
{
    match tok {
        Tok::Close => Move::Take,
        Tok::Comma => if more == 0 {
            Move::Refuse
        } else {
            Move::One(Frame::Modes {
                more: more - 1,
                free,
            })
        },
        _ => Move::Refuse,
    }
}

pub fn move_more_moded(tok: &Tok) -> Move
    ensures { result ≡ move_more_moded tok.now }
{
    match tok {
        Tok::Comma => Move::Two(Frame::Moded, Frame::MoreModed),
        _ => Move::Pass,
    }
}

pub fn move_more_atoms(tok: &Tok) -> Move
    ensures { result ≡ move_more_atoms tok.now }
{
    match tok {
        Tok::Comma => Move::Two(Frame::Atom { vars: true }, Frame::MoreAtoms),
        _ => Move::Pass,
    }
}

pub fn move_head(tok: &Tok) -> Move
    ensures { result ≡ move_head tok.now }
{
    match tok {
        Tok::Initiates | Tok::Terminates => Move::Two(
            Frame::Atom { vars: true },
            Frame::Conditions,
        ),
        Tok::From => Move::Two(Frame::Span, Frame::MacroBody),
        _ => move_conditions(tok),
    }
}

pub fn move_antecedent(tok: &Tok) -> Move
    ensures { result ≡ move_antecedent tok.now }
{
    match tok {
        Tok::Comma => Move::Two(Frame::Item { bounds: true }, Frame::Antecedent),
        Tok::Then => Move::Three(
            Frame::Item { bounds: true },
            Frame::MoreItems { bounds: true },
            Frame::Alternatives,
        ),
        _ => Move::Refuse,
    }
}

pub fn move_alternatives(tok: &Tok) -> Move
    ensures { result ≡ move_alternatives tok.now }
{
    match tok {
        Tok::Or => Move::Three(
            Frame::Item { bounds: true },
            Frame::MoreItems { bounds: true },
            Frame::Alternatives,
        ),
        _ => Move::Pass,
    }
}

pub fn move_macro_body(tok: &Tok) -> Move
    ensures { result ≡ move_macro_body tok.now }
{
    match tok {
        Tok::If => Move::Two(
            Frame::Item { bounds: true },
            Frame::MoreItems { bounds: true },
        ),
        _ => Move::Refuse,
    }
}
