//! The laws of sizes, the contract of a function that does nothing.
ghost use Rattle.lps_limits.specs.Laws.{KeptIsTold, SizesAreTold, SizesAreUnique};

/// Where what waits and what is pursued stand for a trace, their symbols together are those kept by rule and by goal at its last cycle: a
/// node that waits counts for its own rule alone, and a goal that is closed counts nothing. So the sizes of these values are the sizes of
/// the trace, which has no others.
pub fn size_law()
    ensures kept { KeptIsTold }
    ensures sizes { SizesAreTold }
    ensures unique { SizesAreUnique }
{}
