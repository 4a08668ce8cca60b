//! Disks in memory whose reads fall short of what the disk holds, and a depot that gives them. They do not tell what
//! they hold.
//! Stands on `swh_outside`, `swh_memory_failures` and `swh_memory_disk`.
//! Callers may rely on: each part's count of faults, and the bounds on lengths.
#![tactic(auto)]

mod depot;
mod disk;

pub use depot::ShortDepot;
pub use disk::{Reads, ShortDisk};
