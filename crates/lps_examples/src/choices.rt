//! Worked examples of choice.

ghost use Rattle.lps_examples.specs.Conflicts.{ConflictExample, EitherIsRun, IllegalExample};
ghost use Rattle.lps_examples.specs.Offers.{OfferExample, OfferOrder};

/// Two goals that want what may not happen at once: the plain run with the oldest goal first, and the other one with the newest, both
/// of them runs; and cycles that are not legal, for a pick too many, for one too few, and for picks of what the goal does not want then.
pub fn choice_law()
    ensures conflict { ConflictExample }
    ensures either { EitherIsRun }
    ensures illegal { IllegalExample }
{}

/// Of the offers of a goal that of the first alternative comes first, and of one alternative that by the first clauses.
pub fn offer_law()
    ensures order { OfferOrder }
    ensures first { OfferExample }
{}
