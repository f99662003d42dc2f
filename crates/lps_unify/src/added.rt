use lps_terms::Term;

/// What was added to bindings: a variable was bound, or there are so many variables more.
#[derive(Drop)]
pub enum Added {
    Bind(u32, Term),
    More(u32),
}
