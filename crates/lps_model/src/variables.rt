ghost use Rattle.std.specs.Prelude.{◌≡◌};
ghost use Rattle.lps_model.specs.Variables.{has_variable as has_variable_of, have_variables as have_variables_of};

use lps_terms::Term;

/// Whether a term holds a variable.
#[cycle(variables)]
pub fn has_variable(term: &Term) -> bool
    ensures { result ≡ has_variable_of term.now }
{
    match term {
        Term::Int(_) => false,
        Term::Sym(_) => false,
        Term::App(_, args) => have_variables(args.as_slice()),
        Term::Var(_) => true,
    }
}

/// Whether one of some terms holds a variable.
#[cycle(variables)]
pub fn have_variables(args: &[Term]) -> bool
    ensures { result ≡ have_variables_of args.now }
{
    for arg in args {
        if has_variable(arg) {
            return true;
        }
    }
    false
}
