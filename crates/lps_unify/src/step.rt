use lps_terms::Term;

/// What is next on the way to a unifier of two terms: they are the same, nothing makes them equal, or a variable has to
/// be bound to a term.
#[derive(Drop)]
pub(crate) enum Step {
    Same,
    Clash,
    Bind(u32, Term),
}
