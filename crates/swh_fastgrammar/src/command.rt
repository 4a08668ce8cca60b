//! The commands of a stream (git-fast-import(1), commands), as the grammar hands them out.

use swh_base::{Bytes, Items};

/// What a line says, and the place of the line's first byte in the stream.
#[derive(Drop)]
pub struct At<T: Drop> {
    pub at: u64,
    pub it: T,
}

/// What names a commit, or what a tag is of.
#[derive(Drop)]
pub enum Commitish {
    /// A mark, 1 or more.
    Mark(u64),
    /// The tip of a ref.
    Branch(Bytes),
}

/// What a commit or a ref starts from.
#[derive(Drop)]
pub enum Start {
    /// There is no line `from`.
    Absent,
    /// A reset to forty zeros: the ref has no tip.
    NoTip,
    Of(At<Commitish>),
}

/// What a file is set to.
#[derive(Drop)]
pub enum Dataref {
    /// The blob of a mark.
    Mark(u64),
    /// These very bytes.
    Inline(Bytes),
    /// A revision of another project, by its id.
    Hex([u8; 20]),
}

/// A change of the tree. Paths have their components joined by `/`, and are not quoted here.
#[derive(Drop)]
pub enum Change {
    /// `mode` is 100644, 100755, 120000 or 160000, its digits read as a decimal number.
    Set {
        mode: u32,
        what: Dataref,
        path: Bytes,
    },
    Delete {
        path: Bytes,
    },
    Copy {
        source: Bytes,
        path: Bytes,
    },
    Move {
        source: Bytes,
        path: Bytes,
    },
    /// All is deleted.
    Clear,
}

/// A command that says something about objects or refs.
#[derive(Drop)]
pub enum Command {
    Blob {
        mark: Option<u64>,
        bytes: Bytes,
    },
    Commit {
        branch: Bytes,
        mark: Option<u64>,
        author: Option<Bytes>,
        committer: Bytes,
        encoding: Option<Bytes>,
        message: Bytes,
        /// Never `NoTip`.
        parent: Start,
        merges: Items<At<Commitish>>,
        changes: Items<At<Change>>,
    },
    Tag {
        /// The tag's name, which is a ref after `refs/tags/`.
        branch: Bytes,
        mark: Option<u64>,
        target: At<Commitish>,
        tagger: Option<Bytes>,
        message: Bytes,
    },
    Reset {
        branch: Bytes,
        parent: Start,
    },
}
