//! The values of expressions, and whether built-ins are true.
//!
//! It stands on terms and expressions as data, and knows nothing of texts, of variables that are bound or of what else
//! a condition may ask. Its theorem is that division rounds toward negative infinity and that no other quotient does
//! (`division_rounds_down`); `value` and `holds` give exactly what the definitions say.
//!
//! Contracts cite these definitions:
//!
//! | file of `specs/` | defines |
//! |---|---|
//! | `Division` | the quotient and the remainder of `div` and `mod` |
//! | `Values` | the value of an operation and of an expression |
//! | `Truth` | whether a built-in is true |
#![tactic(auto)]

mod arithmetic;
mod laws;
mod truth;
mod values;

pub use laws::{division_rounds_down, truth_by_form, values_by_form};
pub use truth::holds;
pub use values::value;
