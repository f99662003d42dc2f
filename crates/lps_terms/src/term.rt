ghost use Rattle.std.specs.Prelude.{◌≡◌, ◌≤◌, length};

use crate::name::Name;
use sqlite_items::Items;

/// The arguments of a term or an atom. Contracts see them as the list of the terms.
pub type Args = Items<Term>;

/// A value, or what values of its variables make one.
#[derive(Drop)]
pub enum Term {
    Int(i64),
    /// A constant.
    Sym(Name),
    /// A function with its 1 to 64 arguments.
    App(Name, Args),
    /// A variable, by its number in its statement.
    Var(u32),
}

/// These terms as arguments.
pub fn args_of(terms: Vec<Term>) -> Args
    requires { length terms.items ≤ 64 }
    ensures { result ≡ terms.items }
{
    Items::from_vec(terms)
}
