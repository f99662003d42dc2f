//! The law of nodes that rest, as the contract of a function that does nothing.
ghost use Rattle.lps_seq.specs.Resting.{RestsUntilTouched};

/// A node on which steps can be made goes on to itself alone, and ends with nothing, in each cycle that does not touch what wakes it.
pub fn rest_law()
    ensures { RestsUntilTouched }
{}
