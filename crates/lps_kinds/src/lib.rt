//! Whether each predicate of a text is declared, once, and stands with its number of arguments where its kind may stand;
//! whether the facts of the start hold no variable, and each denial has an event.
//!
//! It stands on the data of texts and the definitions of the model, and never knows of how a text was read, of the order of
//! times, of known variables or of levels. Its theorem is that `kinds` answers the declarations exactly where none of its
//! refusals stands, and else the first of them in order at the first statement where it stands (clauses `declarations` and
//! `refusal`).
//!
//! A call that answers `AllocError` says that memory ran out. Contracts cite these definitions of the model:
//!
//! | file | defines |
//! |---|---|
//! | `Declarations` | the first declaration of a name, with its kind, its number of arguments and its modes |
//! | `Occurrences` | the names in a text from the left, each with its line, its number of arguments and its place |
//! | `Variables` | which terms and atoms hold a variable |
//! | `KindRefusals` | which kinds may stand at which place, each refusal, and which of them is the text's |
#![tactic(auto)]

mod fault;
mod judge;
mod names;
mod occurrences;
mod statements;
mod twice;

pub use judge::kinds;
