/// Which goals are served first.
#[derive(Clone, Copy, Debug, PartialEq, Eq)]
pub enum Prefer {
    Oldest,
    Newest,
}
