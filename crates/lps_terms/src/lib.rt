//! The language as data: names, terms, atoms and whole texts, with the refusals that speak of them.
//!
//! It stands on a list that contracts see as plain data, and knows nothing of bytes that are read, of what a text
//! means, or of a run. Its theorem is that the order of terms and atoms is total and only equal ones tie
//! (`order_is_total`), so that sorted lists, sets and maps of them have one form.
//!
//! A call that answers `AllocError` says that memory ran out. Contracts see a `Name` as its bytes and an `Items` as the
//! list of its elements, and cite these definitions:
//!
//! | file of `specs/` | defines |
//! |---|---|
//! | `Integers` | which integers are an `i64` |
//! | `Names`, `NameLaws` | which bytes are a name, and which are one that a text may give |
//! | `Symbols` | how many symbols a term or an atom has |
//! | `Order`, `OrderLaws` | the order of names, terms and atoms, whether they are equal, and the laws of both |
//! | `Printed` | the canonical text of a term and an atom |
//! | `Put` | a term or an atom with terms in the places of its variables |
//! | `Forms` | induction over terms, and what a fold gives at each of the four forms |
#![tactic(auto)]

mod atom;
mod batch_kind;
mod body;
mod built;
mod compare;
mod con;
mod cond;
mod copy;
mod count;
mod decl;
mod effects;
mod expr;
mod item;
mod kind;
mod laws;
mod lex_refused;
mod lit;
mod mode;
mod name;
mod op;
mod ord;
mod prefer;
mod print;
mod read_refused;
mod refused;
mod rel;
mod statement;
mod term;
mod text;
mod text_refused;
mod time_rel;
mod time_var;
mod values;

pub use atom::Atom;
pub use batch_kind::BatchKind;
pub use body::Body;
pub use built::Built;
pub use compare::{order, order_atoms};
pub use con::Con;
pub use cond::Cond;
pub use copy::{copy_atom, copy_built, copy_conds, copy_item, copy_lit, copy_term};
pub use count::{atom_symbols, symbols};
pub use decl::Decl;
pub use effects::Effects;
pub use expr::Expr;
pub use item::Item;
pub use kind::Kind;
pub use laws::{order_by_form, order_is_total, proper_names_are_names, substitution_composes};
pub use lex_refused::LexRefused;
pub use lit::Lit;
pub use mode::Mode;
pub use name::{Name, is_proper_name};
pub use op::Op;
pub use prefer::Prefer;
pub use print::{print_atom, print_term};
pub use read_refused::ReadRefused;
pub use refused::Refused;
pub use rel::Rel;
pub use statement::Statement;
pub use term::{Args, Term, args_of};
pub use text::Text;
pub use text_refused::TextRefused;
pub use time_rel::TimeRel;
pub use time_var::TimeVar;
pub use values::Values;
