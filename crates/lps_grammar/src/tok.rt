ghost use Rattle.std.specs.Prelude.{◌≡◌};
ghost use Rattle.lps_grammar.specs.Signs.{is_op, is_rel};

use crate::word::Word;

/// A token without its place.
#[derive(Debug, Drop)]
pub enum Tok {
    /// A name of a predicate, a function or a constant.
    Name(Word),
    /// A variable for data, under its number.
    Variable(u32),
    /// A variable for times, under its number.
    Time(u32),
    /// Digits, by their value.
    Number(u64),
    If,
    Then,
    Or,
    Not,
    False,
    Fluent,
    Event,
    Action,
    Timeless,
    Derived,
    Macro,
    Initially,
    Initiates,
    Terminates,
    At,
    From,
    To,
    Is,
    Div,
    Mod,
    /// `(`
    Open,
    /// `)`
    Close,
    Comma,
    /// The full stop.
    Dot,
    Slash,
    Plus,
    Minus,
    Star,
    /// `=`
    Equal,
    /// `\=`
    Differ,
    Less,
    /// `=<`
    AtMost,
    Greater,
    /// `>=`
    AtLeast,
    Colon,
}

impl Tok {
    /// Whether the token is an operator of expressions.
    pub fn is_op(&self) -> bool
        ensures { result ≡ is_op self.now }
    {
        matches!(
            self,
            Tok::Plus | Tok::Minus | Tok::Star | Tok::Div | Tok::Mod
        )
    }

    /// Whether the token is a relation between two expressions.
    pub fn is_rel(&self) -> bool
        ensures { result ≡ is_rel self.now }
    {
        matches!(self, Tok::Less | Tok::AtMost | Tok::Greater | Tok::AtLeast)
    }
}
