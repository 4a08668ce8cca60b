//! What somebody wants to happen.
use crate::how::How;
use swh_base::{Namer, Url, VisitKind};
use swh_object::Object;

/// What somebody wants to add. Of a batch all objects are handed over; its event has only those that are new.
#[derive(Drop)]
pub enum Plan<N: Namer> {
    Batch(Vec<Object<N>>),
    Open {
        origin: Url,
        kind: VisitKind,
        /// In seconds since 1970 began.
        date: u64,
    },
    /// A status for the visit of a number, which its origin has.
    Mark {
        origin: Url,
        visit: u64,
        how: How,
    },
}
