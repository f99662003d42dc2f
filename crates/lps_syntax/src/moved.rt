use crate::frame::Frame;

/// What an expected phrase does at a token: it takes it and expects some phrases more, it is empty and passes the token
/// to the phrase after it, or it refuses.
#[derive(Clone, Copy, Debug)]
pub enum Move {
    Take,
    One(Frame),
    Two(Frame, Frame),
    Three(Frame, Frame, Frame),
    Pass,
    Refuse,
}
