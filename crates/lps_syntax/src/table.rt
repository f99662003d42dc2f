//! What is expected, at each token: all of the table.
ghost use Rattle.std.specs.Prelude.{◌≡◌};
ghost use Rattle.lps_syntax.specs.Moves.{move_of};

use crate::frame::Frame;
use crate::items::{
    move_after_atom, move_after_item_atom, move_after_leaf, move_at, move_cond, move_conditions,
    move_constant, move_item, move_more_conds, move_more_items, move_shift, move_span, move_time,
    move_time_rel, move_to,
};
use crate::lines::{
    move_colon, move_event, move_events, move_line, move_line_end, move_more_events,
};
use crate::moved::Move;
use crate::statements::{
    move_alternatives, move_antecedent, move_arity, move_decl, move_end, move_head,
    move_macro_body, move_mode_list, move_moded, move_modes, move_more_atoms, move_more_decls,
    move_more_moded, move_more_modes, move_slash, move_text,
};
use crate::terms::{
    move_args, move_atom, move_negative, move_rest, move_rest_then_close, move_rest_then_rel,
    move_term, move_terms, move_unit,
};
use lps_grammar::Tok;

/// What the expected phrase does at the token.
pub fn move_of(frame: Frame, tok: &Tok) -> Move
    ensures { result ≡ move_of frame tok.now }
{
    match frame {
        Frame::Text => move_text(tok),
        Frame::End => move_end(tok),
        Frame::Decl => move_decl(tok),
        Frame::Slash => move_slash(tok),
        Frame::Arity => move_arity(tok),
        Frame::MoreDecls => move_more_decls(tok),
        Frame::Moded => move_moded(tok),
        Frame::ModeList => move_mode_list(tok),
        Frame::Modes { more, free } => move_modes(more, free, tok),
        Frame::MoreModes { more, free } => move_more_modes(more, free, tok),
        Frame::MoreModed => move_more_moded(tok),
        Frame::Atom { vars } => move_atom(vars, tok),
        Frame::Args { vars } => move_args(vars, tok),
        Frame::Term { vars } => move_term(vars, tok),
        Frame::Terms { vars, more } => move_terms(vars, more, tok),
        Frame::Negative => move_negative(tok),
        Frame::MoreAtoms => move_more_atoms(tok),
        Frame::Head => move_head(tok),
        Frame::Conditions => move_conditions(tok),
        Frame::Cond => move_cond(tok),
        Frame::MoreConds => move_more_conds(tok),
        Frame::AfterAtom => move_after_atom(tok),
        Frame::AfterLeaf => move_after_leaf(tok),
        Frame::Unit => move_unit(tok),
        Frame::Rest => move_rest(tok),
        Frame::RestThenRel => move_rest_then_rel(tok),
        Frame::RestThenClose => move_rest_then_close(tok),
        Frame::Item { bounds } => move_item(bounds, tok),
        Frame::MoreItems { bounds } => move_more_items(bounds, tok),
        Frame::AfterItemAtom => move_after_item_atom(tok),
        Frame::At => move_at(tok),
        Frame::Span => move_span(tok),
        Frame::To => move_to(tok),
        Frame::Time => move_time(tok),
        Frame::Antecedent => move_antecedent(tok),
        Frame::Alternatives => move_alternatives(tok),
        Frame::MacroBody => move_macro_body(tok),
        Frame::TimeRel => move_time_rel(tok),
        Frame::Shift => move_shift(tok),
        Frame::Constant => move_constant(tok),
        Frame::Line => move_line(tok),
        Frame::Colon => move_colon(tok),
        Frame::Events => move_events(tok),
        Frame::Event => move_event(tok),
        Frame::MoreEvents => move_more_events(tok),
        Frame::LineEnd => move_line_end(tok),
    }
}
