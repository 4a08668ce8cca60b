//! The outside of the archive: bytes in, bytes out, disks, folders, links and the clock, each a trait with a meaning
//! and a count of faults.
//! Stands on `std` alone.
//! Callers may rely on: the clauses of each trait, whatever implements it: content where the implementation tells it,
//! and counts and bounds always.
#![tactic(auto)]

mod clock;
mod depot;
mod disk;
mod doors;
mod fault;
mod folder;
mod gate;
mod link;
mod origins;
mod path_counts;
mod sink;
mod source;
mod yard;

pub use clock::Clock;
pub use depot::Depot;
pub use disk::Disk;
pub use doors::Doors;
pub use fault::{Failed, Opened, OutFault};
pub use folder::{Folder, Item, What};
pub use gate::{Gate, OpenGate};
pub use link::Link;
pub use origins::Origins;
pub use path_counts::PathCounts;
pub use sink::Sink;
pub use source::Source;
pub use yard::Yard;
