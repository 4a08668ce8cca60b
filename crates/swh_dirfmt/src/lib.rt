//! Directory manifests (git objects, tree): a body read into its entries, and written again, byte for byte.
//! Stands on `swh_base`, whose grammar of directories it reads and writes, on `swh_base` and on `itoa`.
//! Callers may rely on: exactly the grammar is read, a refusal names the first entry that breaks and why, and each list
//! of entries has one spelling.
#![tactic(auto)]

mod entries;
mod entry;
mod fault;
mod front;
mod order;
mod reading;
mod writing;

pub use entries::Entries;
pub use entry::{DirEntry, SpelledEntry};
pub use fault::{BadDir, DirWhy, ReadDirFault, one_fault};
pub use reading::{read_dir, spelled_dir};
pub use writing::{one_spelling, write_dir};
