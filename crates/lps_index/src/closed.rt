ghost use Rattle.std.specs.Prelude.{◌≡◌, option_copied};
ghost use Rattle.lps_index.specs.Matching.{closed_first};

use lps_model::has_variable;
use lps_terms::Term;

/// The first of the arguments, where it has no variables.
pub(crate) fn closed_first(args: &[Term]) -> Option<&Term>
    ensures { option_copied result ≡ closed_first args.now }
{
    match args {
        [first, ..] => {
            if has_variable(first) {
                None
            } else {
                Some(first)
            }
        }
        _ => None,
    }
}
