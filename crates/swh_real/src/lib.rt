//! The outside over files, standard output, the clock and connections over TCP: the trusted edge.
//! Stands on `swh_outside`, `swh_folder_names` and `swh_files`.
//! Callers may rely on: each part's count of faults, which rises where the system refuses, and the bounds on lengths;
//! what a file or a connection really holds no part tells.
#![tactic(auto)]

mod accepting;
mod clock;
mod depot;
mod disk;
mod doors;
mod folder;
mod link;
mod origins;
mod patience;
mod sink;
mod source;
mod stream;
mod yard;

pub use clock::RealClock;
pub use depot::RealDepot;
pub use disk::RealDisk;
pub use doors::RealDoors;
pub use folder::RealFolder;
pub use link::RealLink;
pub use origins::RealOrigins;
pub use sink::RealSink;
pub use source::RealSource;
/// The gate of the program, which holds nobody.
pub use swh_outside::OpenGate as RealGate;
pub use yard::RealYard;
