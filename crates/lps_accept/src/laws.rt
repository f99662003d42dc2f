//! The laws of acceptance, each the contract of a function that does nothing.
ghost use Rattle.lps_accept.specs.Laws.{AcceptedAreNotRefused, RefusalsAreUnique};

use lps_levels::{cycles_are_unique, levelled_texts_have_no_cycle};

/// An accepted text is refused for nothing.
pub fn accepted_texts_are_not_refused()
    ensures { AcceptedAreNotRefused }
{
    levelled_texts_have_no_cycle();
}

/// A text is refused for no more than one thing.
pub fn refusals_are_unique()
    ensures { RefusalsAreUnique }
{
    cycles_are_unique();
}
