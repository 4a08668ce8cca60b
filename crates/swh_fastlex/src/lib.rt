//! Inputs read from a source, whole or line by line, and the paths in them.
//! Stands on `swh_base` and `swh_outside`.
//! Callers may rely on: what is read whole is all that was left; a front is cut only above its limit; no more than a
//! window above the limit is taken, and no more than one byte by the reader that reserves; a fault says which limit or
//! count; a path is the one that its text spells, none where it spells none, and told to be too long before either;
//! each line, and the data after one, are the next in the stream, in whatever pieces the source gives them, and each
//! end of reading is told by its case; a count of faults rises only where the answer is that the source failed.
#![tactic(auto)]

mod counted;
mod delimited;
mod fault;
mod feed;
mod laws;
mod line;
mod path;
mod paths;
mod reserved;
mod source;
mod spelling;
mod window;
mod word;

pub use counted::next_data;
pub use delimited::next_delimited;
pub use fault::{DataFault, LineFault, SourceFault};
pub use feed::next_feed;
pub use laws::{one_spelled_path, size_of_a_window};
pub use line::{move_front, next_line};
pub use path::is_path;
pub use paths::{PathBefore, path_before, path_word};
pub use reserved::read_source_reserved;
pub use source::{WINDOW, read_front, read_source};
pub use window::Window;
pub use word::Word;
