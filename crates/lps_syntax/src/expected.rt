ghost use Rattle.std.specs.Prelude.{◌≡◌, ◌↔◌, IfOk, IsTrue, MatchOption, None, Some, [], ◌∷◌, reverse};
ghost use Rattle.lps_syntax.specs.declared.frame.Frame.TheVariants.{Line, Text};
ghost use Rattle.lps_syntax.specs.Runs.{step, taker};

use crate::frame::Frame;
use crate::moved::Move;
use crate::table::move_of;
use lps_grammar::Tok;
use std::alloc::{AllocError, Global};
use std::marker::Model;

/// What is expected of the tokens to come. Contracts see it as the list of the expected phrases, the next one first.
#[derive(Drop)]
pub struct Expected {
    stack: Vec<Frame>,
}

impl Model for Expected {
    ghost use Rattle.std.specs.Prelude.{List, reverse};
    ghost use Rattle.lps_syntax.specs.declared.frame.Frame.{Frame};

    ghost Value = { List Frame };

    ghost view = { λ expected. reverse expected.stack.items };
}

impl Expected {
    /// A text is expected.
    pub fn text(alloc: Global) -> Result<Expected, AllocError>
        ensures { IfOk result (λ expected. expected ≡ Text ∷ []) }
    {
        let mut stack = Vec::new(alloc);
        stack.push(Frame::Text)?;
        Ok(Expected { stack })
    }

    /// A line of events is expected.
    pub fn line(alloc: Global) -> Result<Expected, AllocError>
        ensures { IfOk result (λ expected. expected ≡ Line ∷ []) }
    {
        let mut stack = Vec::new(alloc);
        stack.push(Frame::Line)?;
        Ok(Expected { stack })
    }

    /// Goes on by one token, and answers the phrase that takes it; None where the token may not stand here. Nothing is
    /// said of what is expected after None or an error.
    pub fn advance(&mut self, tok: &Tok) -> Result<Option<Frame>, AllocError>
        ensures taker { IfOk result (λ taken. taken ≡ taker self.old tok.now) }
        ensures goes_on { IfOk result (λ taken. MatchOption taken (step self.old tok.now ≡ None) (λ frame. step self.old tok.now ≡ Some self.new)) }
    {
        go_on(&mut self.stack, tok)
    }

    /// Whether a text may end here.
    pub fn ends_text(&self) -> bool
        ensures { IsTrue result ↔ (self.now ≡ Text ∷ []) }
    {
        is_text_end(self.stack.as_slice())
    }

    /// Whether a line may end here.
    pub fn ends_line(&self) -> bool
        ensures { IsTrue result ↔ (self.now ≡ []) }
    {
        is_line_end(self.stack.as_slice())
    }
}

/// Goes on by one token. The last element of the stack is what is expected next.
fn go_on(stack: &mut Vec<Frame>, tok: &Tok) -> Result<Option<Frame>, AllocError>
    ensures taker { IfOk result (λ taken. taken ≡ taker (reverse stack.old.items) tok.now) }
    ensures goes_on { IfOk result (λ taken. MatchOption taken (step (reverse stack.old.items) tok.now ≡ None) (λ frame. step (reverse stack.old.items) tok.now ≡ Some (reverse stack.new.items))) }
{
    while let Some(frame) = stack.pop() {
        match move_of(frame, tok) {
            Move::Take => return Ok(Some(frame)),
            Move::One(a) => {
                stack.push(a)?;
                return Ok(Some(frame));
            }
            Move::Two(a, b) => {
                stack.push(b)?;
                stack.push(a)?;
                return Ok(Some(frame));
            }
            Move::Three(a, b, c) => {
                stack.push(c)?;
                stack.push(b)?;
                stack.push(a)?;
                return Ok(Some(frame));
            }
            Move::Pass => {}
            Move::Refuse => return Ok(None),
        }
    }
    Ok(None)
}

fn is_text_end(stack: &[Frame]) -> bool
    ensures { IsTrue result ↔ (reverse stack.now ≡ Text ∷ []) }
{
    match stack {
        [Frame::Text] => true,
        _ => false,
    }
}

fn is_line_end(stack: &[Frame]) -> bool
    ensures { IsTrue result ↔ (reverse stack.now ≡ []) }
{
    match stack {
        [] => true,
        _ => false,
    }
}
