//! Writing the text of a stream: marks, data, quoted paths and the lines of its commands; and text on its way, put into
//! a sink, or counted, piece by piece.
//! Stands on `swh_base` and `swh_revfmt`, on `swh_fastlex` for what a path is, on `swh_outside`, whose sinks take
//! bytes, and on `hex` and `itoa`.
//! Callers may rely on: each call appends just the text that its definition gives, and a path that is written is read
//! as itself; who writes a text writes it alike for a sink and for a count; the sink has taken the whole text, or a
//! front of it at a failure, and the count is that of its bytes.
#![tactic(auto)]

mod commands;
mod counter;
mod held;
mod laws;
mod lines;
mod quoting;
mod sinks;
mod taker;

pub use commands::{
    push_begin, push_blob_head, push_commit_head, push_end, push_tag_head, push_tip,
};
pub use counter::Counter;
pub use held::{flush, settle, take_large};
pub use laws::paths_are_read_again;
pub use lines::{push_data, push_data_line, push_file, push_marked, push_project};
pub use quoting::push_path;
pub use taker::Taker;
