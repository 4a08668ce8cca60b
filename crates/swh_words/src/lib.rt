//! The words of a run, read by clap.
//! Stands on `swh_base` and `clap`.
//! Callers may rely on: words are a command exactly where clap's definition of the program takes them and gives its
//! values, and are one command at most. They are one exactly where they spell it, and none exactly where clap refuses
//! them or they name no kind.
#![tactic(auto)]

mod command;
mod definition;
mod laws;
mod reading;

pub use command::{Command, WordsFault};
pub use laws::{one_command, refused_words, spelled_words};
pub use reading::parse_words;
