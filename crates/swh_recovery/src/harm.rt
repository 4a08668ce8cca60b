//! What is wrong with an archive's files.

/// What stands at a place where something else has to stand.
#[derive(Clone, Copy, Debug, PartialEq, Eq)]
pub enum Harm {
    /// A byte of the ledger's magic is another.
    Magic { found: u8 },
    /// A byte that is none of its kind.
    Kind { found: u8 },
    /// As many bytes stand there as `have` says, where `need` are needed.
    Short { have: u64, need: u64 },
    /// The id that stands there is not the one that the namer gives for the body.
    Name { found: [u8; 20], wanted: [u8; 20] },
    /// The body's reader refuses it at this place, in bytes from the body's first; of a body above the limit this is the
    /// limit.
    Body { at: u64 },
    /// The record is of no event that could be the one of this number, from 1.
    Refused { event: u64 },
}

/// A harm and its place, in bytes from the beginning of its file.
#[derive(Clone, Copy, Debug, PartialEq, Eq)]
pub struct Found {
    pub at: u64,
    pub harm: Harm,
}
