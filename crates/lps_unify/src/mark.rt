ghost use Rattle.std.specs.Prelude.{◌≡◌};

use std::marker::Model;

/// A moment in the life of bindings. Contracts see how much was added before.
#[derive(Debug, Drop)]
pub struct BindMark {
    added: usize,
}

impl Model for BindMark {
    ghost use Rattle.std.specs.Prelude.{ℕ};

    ghost Value = { ℕ };

    ghost view = { λ mark. mark.added };
}

impl BindMark {
    pub(crate) fn new(added: usize) -> BindMark
        ensures { result ≡ added }
    {
        BindMark { added }
    }

    pub(crate) fn added(&self) -> usize
        ensures { result ≡ self.now }
    {
        self.added
    }
}
