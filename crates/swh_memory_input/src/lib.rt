//! Sources, folders, origins, sinks, yards, links, doors and a clock in memory, told in full, of which each can be made
//! to fail at chosen calls; and a gate that counts its calls. No call of a source, sink, link or clock allocates.
//! Stands on `swh_outside`, `swh_memory_failures` and `swh_folder_names`.
//! Callers may rely on: a source gives the bytes and the pieces that it was made with, a folder holds the tree of its
//! places, a sink keeps what was put, a yard what was begun, in its order, a link both what it gave and what was put,
//! and doors the links that were given back.
#![tactic(auto)]

mod clock;
mod doors;
mod folder;
mod folder_input;
mod gate;
mod input;
mod link;
mod making;
mod origins;
mod path_item;
mod sink;
mod source;
mod yard;

pub use clock::MemoryClock;
pub use doors::MemoryDoors;
pub use folder::MemoryFolder;
pub use folder_input::FolderInput;
pub use gate::MemoryGate;
pub use input::Input;
pub use link::MemoryLink;
pub use making::{Begins, Making};
pub use origins::MemoryOrigins;
pub use path_item::{PathItem, Stands};
pub use sink::MemorySink;
pub use source::MemorySource;
pub use yard::MemoryYard;
