// How a load ends.
use crate::stop::Stop;
use swh_base::Name;

/// The end of a visit.
#[derive(Clone, Copy, Debug, PartialEq, Eq)]
pub enum End<B> {
    /// All that the snapshot reaches is held.
    Full { snapshot: [u8; 20] },
    /// There is no input.
    NotFound,
    /// The input does not open.
    Unread,
    /// The input is bad.
    Bad(B),
    /// Another body is held under the name of an object of the input.
    Met(Name),
}

/// A visit by its number, and its end.
#[derive(Clone, Copy, Debug, PartialEq, Eq)]
pub struct Loaded<B> {
    pub visit: u64,
    pub end: End<B>,
}

/// The visit's number, 0 where none was opened, and why its load stopped.
#[derive(Clone, Copy, Debug, PartialEq, Eq)]
pub struct LoadFault {
    pub visit: u64,
    pub why: Stop,
}
