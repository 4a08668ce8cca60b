//! The value of a SWHID text, and what its qualifiers say.

use swh_base::{Bytes, Name};

/// An artifact's name, and where it was seen (SWHID v1.2, qualified identifiers).
#[derive(Debug, Drop)]
pub struct Swhid {
    /// The artifact that the text names.
    pub core: Name,
    /// The URL that it was loaded from, decoded: one byte or more.
    pub origin: Option<Bytes>,
    /// The snapshot of the visit that found it.
    pub visit: Option<Name>,
    /// The artifact that a path begins at: any but a content.
    pub anchor: Option<Name>,
    /// Where it stands below the anchor, decoded: from a `/` on.
    pub path: Option<Bytes>,
    /// The first line and the last, counted from 1, each below 10 ^ 18.
    pub lines: Option<(u64, Option<u64>)>,
    /// The first byte and the last, counted from 0, each below 10 ^ 18.
    pub bytes: Option<(u64, Option<u64>)>,
}

/// What a qualifier may say.
#[derive(Clone, Copy)]
pub enum Key {
    Origin,
    Visit,
    Anchor,
    Path,
    Lines,
    Bytes,
}
