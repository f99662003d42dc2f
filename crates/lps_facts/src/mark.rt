ghost use Rattle.std.specs.Prelude.{◌≡◌};

use std::marker::Model;

/// A moment in the life of a set of facts. Contracts see how many changes there were.
#[derive(Debug, Drop)]
pub struct Mark {
    changes: usize,
}

impl Model for Mark {
    ghost use Rattle.std.specs.Prelude.{ℕ};

    ghost Value = { ℕ };

    ghost view = { λ mark. mark.changes };
}

impl Mark {
    pub(crate) fn new(changes: usize) -> Mark
        ensures { result ≡ changes }
    {
        Mark { changes }
    }

    pub(crate) fn changes(&self) -> usize
        ensures { result ≡ self.now }
    {
        self.changes
    }
}
