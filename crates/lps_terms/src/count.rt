ghost use Rattle.std.specs.Prelude.{◌≡◌, ◌+◌, min};
ghost use Rattle.lps_terms.specs.Symbols.{atom_symbols_of, symbols_of, symbols_of_all};

use crate::atom::Atom;
use crate::term::Term;

/// How many symbols a term has, where each integer, each name and each variable counts one. `u64::MAX` stands for that
/// number and all above.
#[cycle(count)]
pub fn symbols(term: &Term) -> u64
    ensures { result ≡ min (symbols_of term.now) u64.MAX }
{
    match term {
        Term::App(_, args) => symbols_with(args.as_slice()),
        _ => 1,
    }
}

/// How many symbols an atom has. `u64::MAX` stands for that number and all above.
pub fn atom_symbols(atom: &Atom) -> u64
    ensures { result ≡ min (atom_symbols_of atom.now) u64.MAX }
{
    symbols_with(atom.args.as_slice())
}

/// One for a name, and the symbols of its arguments.
#[cycle(count)]
fn symbols_with(args: &[Term]) -> u64
    ensures { result ≡ min (1 + symbols_of_all args.now) u64.MAX }
{
    let mut count = 1u64;
    for arg in args {
        count = count.saturating_add(symbols(arg));
    }
    count
}
