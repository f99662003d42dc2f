//! What the bytes of a report tell: laws alone.
//!
//! It stands on what rules mean, and never knows of what prints the bytes. It carries the laws that ground blocks are told by
//! their bytes, that all that is reported of a run is ground, and so that a report tells its run (`telling_law`).
#![tactic(auto)]

mod laws;

pub use laws::telling_law;
