ghost use Rattle.std.specs.Prelude.{◌≡◌, IfOk, length};
ghost use Rattle.lps_unify.specs.Bindings.{count_of};
ghost use Rattle.lps_unify.specs.Unified.{AreWithin, IsExtended, JoinsAllOn};

use lps_terms::Term;
use lps_unify::Bindings;
use std::alloc::AllocError;

/// Adds a most general unifier of two lists of as many terms, item by item. False comes exactly where there is none. What was
/// bound on the way to false, or to an error where memory runs out, stays.
pub fn unify_all(bindings: &mut Bindings, xs: &[Term], ys: &[Term]) -> Result<bool, AllocError>
    requires left { AreWithin (count_of bindings.now) xs.now }
    requires right { AreWithin (count_of bindings.now) ys.now }
    requires count { length xs.now ≡ length ys.now }
    ensures answer { IfOk result (λ found. JoinsAllOn found bindings.old bindings.new xs.now ys.now) }
    ensures extended { IsExtended bindings.old bindings.new }
{
    for i in 0..xs.len() {
        if !bindings.unify(&xs[i], &ys[i])? {
            return Ok(false);
        }
    }
    Ok(true)
}
