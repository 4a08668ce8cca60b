//! The commands of streams, and the grammar that says which bytes are which commands (git-fast-import(1), input
//! format).
//! Stands on `swh_base`, `swh_fastlex` and `hex`.
//! Callers may rely on: a text is one list of commands at most, has one fault at most, and not both.
#![tactic(auto)]

mod command;
mod fault;
mod laws;
mod worked;

pub use command::{At, Change, Command, Commitish, Dataref, Start};
pub use fault::StreamWhy;
pub use laws::{no_fault, one_fault, one_reading};
pub use worked::{
    data_before_line, left_out_line, octal_path, one_blob, promise_not_kept, unknown_line,
};
