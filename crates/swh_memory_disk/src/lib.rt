//! Disks and depots in memory, told in full, of which each can be made to fail at chosen calls and at no others. No
//! call of a disk allocates.
//! Stands on `swh_outside` and `swh_memory_failures`.
//! Callers may rely on: a disk keeps each call that was begun, and gives each image that a crash may leave after any of
//! them; a depot opens a file as it was last laid down or given back.
#![tactic(auto)]

mod depot;
mod depot_file;
mod disk;
mod past;
mod places;
mod ranges;
mod record;

pub use depot::MemoryDepot;
pub use disk::MemoryDisk;
pub use record::{MemoryCall, MemoryRecord, Room};
