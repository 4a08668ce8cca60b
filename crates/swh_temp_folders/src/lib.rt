//! Folders of the system for tests, each of its own, and what stands in them at first.
//! Stands on the standard library alone.
//! Callers may rely on: what stood in such a folder before is gone; no clause says it.
#![tactic(auto)]

mod rooms;

pub use rooms::{
    Laid, Thing, clear, fresh_room, is_file, is_file_in, path_in, stands, temporary_path,
};
