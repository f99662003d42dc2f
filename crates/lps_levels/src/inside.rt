ghost use Rattle.std.specs.Prelude.{◌≡◌, ◌||◌, option_copied};
ghost use Rattle.std.specs.List.{list_any};
ghost use Rattle.lps_terms.specs.Order.{term_eq};
ghost use Rattle.lps_model.specs.Calls.{are_nested as are_nested_of, descends as descends_of, is_inside as is_inside_of, starred as starred_of_modes, starred_of};

use lps_model::Kinds;
use lps_terms::{Atom, Mode, Term};

/// Whether the call of an atom under a head descends: its marked argument is a proper subterm of the head's.
pub fn descends(kinds: &Kinds, head: &Atom, atom: &Atom) -> bool
    ensures { result ≡ descends_of kinds.now head.now atom.now }
{
    are_nested(starred_argument(kinds, atom), starred_argument(kinds, head))
}

fn are_nested(inner: Option<&Term>, outer: Option<&Term>) -> bool
    ensures { result ≡ are_nested_of (option_copied inner.entry) (option_copied outer.entry) }
{
    match inner {
        None => false,
        Some(inner) => match outer {
            None => false,
            Some(outer) => is_inside(inner, outer),
        },
    }
}

/// The argument of an atom that the declaration of its name marks `*`.
fn starred_argument<'a>(kinds: &Kinds, atom: &'a Atom) -> Option<&'a Term>
    ensures { option_copied result ≡ starred_of kinds.now atom.now }
{
    match kinds.decl(&atom.name) {
        None => None,
        Some(decl) => starred(decl.modes.as_slice(), atom.args.as_slice()),
    }
}

fn starred<'a>(modes: &[Mode], args: &'a [Term]) -> Option<&'a Term>
    ensures { option_copied result ≡ starred_of_modes modes.now args.now }
{
    let (mode, modes) = modes.split_first()?;
    let (arg, args) = args.split_first()?;
    match mode {
        Mode::Star => Some(arg),
        Mode::Plus => starred(modes, args),
        Mode::Minus => starred(modes, args),
    }
}

#[cycle(inside)]
fn is_inside(inner: &Term, outer: &Term) -> bool
    ensures { result ≡ is_inside_of inner.now outer.now }
{
    match outer {
        Term::App(_, args) => is_or_is_inside(inner, args.as_slice()),
        _ => false,
    }
}

/// Whether a term is one of these, or inside one.
#[cycle(inside)]
fn is_or_is_inside(inner: &Term, terms: &[Term]) -> bool
    ensures { result ≡ list_any (λ term. term_eq inner.now term || is_inside_of inner.now term) terms.now }
{
    for term in terms {
        if inner == term || is_inside(inner, term) {
            return true;
        }
    }
    false
}
