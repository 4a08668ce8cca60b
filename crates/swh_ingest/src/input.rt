// What is loaded.
use swh_base::{Url, VisitKind};

/// How an input was found.
#[derive(Clone, Copy, Debug, PartialEq, Eq)]
pub enum Opening {
    /// It may be read.
    Found,
    /// There is none.
    NotFound,
    /// It does not open.
    Failed,
    /// Memory is wanting.
    Memory,
}

/// An origin, the kind of its visit, when it is loaded, how its input was found, and how that is read.
#[derive(Drop)]
pub struct Job<'a, R> {
    pub origin: &'a Url,
    pub kind: VisitKind,
    pub date: u64,
    pub opening: Opening,
    pub read: R,
}
