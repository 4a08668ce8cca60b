// What a check counts.

/// What an archive holds.
#[derive(Clone, Copy, Debug, PartialEq, Eq)]
pub struct Report {
    /// The names that are held.
    pub objects: u64,
    /// The names that are reached from the snapshots of full visits, each once.
    pub closed: u64,
    /// The visits of all origins.
    pub visits: u64,
}
