//! A second machine for the core, as plain as can be, with which tests compare it: an archive as a list of events, two
//! files as bytes that a barrier made firm, and how many events each actor has seen.
//! Stands on `swh_base`, `swh_model` and on the steps of `swh_core`.
//! Callers may rely on: it is safe. What it answers is what tests compare, and no contract says it.
#![tactic(auto)]

mod files;
mod machine;
mod plain;
mod records;
mod said;
mod verdict;

pub use files::{ByteFile, Files};
pub use machine::{Machine, files_at_crash, first_machine, take};
pub use plain::are_events;
pub use said::{Said, said_of, said_of_told};
