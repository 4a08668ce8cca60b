//! The program over the system: makes the real parts of the outside for what the words ask, and runs it over them.
//! Stands on `swh_base`, `swh_words`, `swh_outside`, `swh_real`, `swh_exit` and `swh_program`.
//! `swharc` may rely on: `start` takes the words and ends as `run` does, and its end is the status of the process.
#![tactic(auto)]

mod end;
mod parts;
mod starting;

pub use end::End;
pub use starting::{end_without_memory, start};
