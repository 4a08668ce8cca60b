/// How a visit's input is read.
#[derive(Clone, Copy, Debug, PartialEq, Eq)]
pub enum VisitKind {
    /// As a stream (git-fast-import(1)).
    Fast,
    /// As a folder.
    Dir,
    /// As a batch of bodies.
    Batch,
}

/// How far a visit is. Full, partial, not found and failed are ends.
#[derive(Clone, Copy, Debug, PartialEq, Eq)]
pub enum Status {
    /// The visit is opened.
    Created,
    /// Its input is looked at.
    Ongoing,
    /// The snapshot and all that it reaches are held.
    Full,
    /// The input was not kept whole; a snapshot may be held.
    Partial,
    /// No input was there.
    NotFound,
    /// The input could not be read, or was refused.
    Failed,
}

/// What a limit is on.
#[derive(Clone, Copy, Debug, PartialEq, Eq)]
pub enum Which {
    /// The bytes of a body.
    Body,
    /// The number of a batch's objects.
    Objects,
    /// The bytes of a batch's bodies, but for the last.
    Bytes,
    /// The bytes of the store.
    Store,
    /// The bytes of the ledger.
    Ledger,
    /// The bytes of an input.
    Stream,
    /// The bytes of a line, with its LF.
    Line,
    /// The bytes of a path.
    Path,
    /// The bytes of a ref.
    Ref,
    /// The number of refs.
    Refs,
}
