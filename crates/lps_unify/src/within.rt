ghost use Rattle.std.specs.Prelude.{◌↔◌, IsTrue};
ghost use Rattle.lps_unify.specs.Weights.{IsWithin};

use lps_terms::Term;

/// Whether each variable of the term is one of the first so many.
pub(crate) fn is_within(count: usize, term: &Term) -> bool
    ensures { IsTrue result ↔ IsWithin count term.now }
{
    match term {
        Term::Int(_) => true,
        Term::Sym(_) => true,
        Term::App(_, args) => {
            for arg in args.as_slice() {
                if !is_within(count, arg) {
                    return false;
                }
            }
            true
        }
        Term::Var(variable) => (*variable as usize) < count,
    }
}
