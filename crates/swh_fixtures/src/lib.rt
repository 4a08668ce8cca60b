//! What tests of several crates share: a worked stream with its names, and disks, archives and inputs in memory.
//! Stands on the keeper and the fakes.
//! Callers may rely on: the names are git's and Software Heritage's, and each fake does what its own crate says.
#![tactic(auto)]

mod archive;
mod input;
mod worked;

pub use archive::{Archive, ArchiveFault, disk, kept, made_archive};
pub use input::found;
pub use worked::{
    CONTENT, DIRECTORY, EMPTY_SNAPSHOT, MADE_LEDGER, REVISION, SNAPSHOT, STREAM, URL,
};
