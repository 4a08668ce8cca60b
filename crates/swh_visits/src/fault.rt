// Why a visit gets no status.
use swh_base::Status;

/// Why a visit gets no status: the first of these that stands. The visits are as they were.
#[derive(Clone, Copy, Debug, PartialEq, Eq)]
pub enum VisitFault {
    /// The origin has this many visits, and none of the number.
    NoVisit { have: u64 },
    /// The worker of this number opened the visit, and another asks.
    NotYours { by: u32 },
    /// The visit ended with this status.
    Ended { status: Status },
    /// Memory ran out.
    Memory,
}
