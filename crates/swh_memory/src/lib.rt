//! The outside over memory, told in full: disks, depots, sources, sinks, origins and a clock, of which each can be made
//! to fail at chosen calls and at no others, and a gate that counts its calls. It is `swh_memory_failures`,
//! `swh_memory_disk` and `swh_memory_input` under one name. Tests of the layers above make these parts, hand them in,
//! and read back what they hold and how often they failed.
#![tactic(auto)]

pub use swh_memory_disk::{MemoryCall, MemoryDepot, MemoryDisk, MemoryRecord, Room};
pub use swh_memory_failures::Failures;
pub use swh_memory_input::{
    Input, MemoryClock, MemoryDoors, MemoryFolder, MemoryGate, MemoryLink, MemoryOrigins,
    MemorySink, MemorySource, MemoryYard,
};
