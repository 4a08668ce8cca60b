//! Cooking: what is reached from a name that is no content is written as a stream (git-fast-import(1)).
//! Stands on `swh_carried`, which has the order of the objects, on `swh_marks`, which has their marks, on
//! `swh_fastcarried`, which has what a stream cannot carry, on `swh_pathwalk` and `swh_fastwrite`, which have the files
//! of a tree and the text of each command, on `swh_pathsums`, which has how long the lines of a tree's files are, and
//! on `swh_fastwrite`, which takes a text piece by piece.
//! Callers may rely on: before anything is put the first name that is not held is told, or else the first object that a
//! stream cannot carry; what is put is the text that the definition of streams gives, or a front of it at a failure.
#![tactic(auto)]

mod commits;
mod ends;
mod files;
mod heads;
mod length;
mod loaded;
mod objects;
mod pieces;
mod ready;
mod stream;
mod tags;
mod tips;
mod weighed;

pub use commits::{write_blob, write_commit, write_tag};
pub use ends::write_end;
pub use files::write_files;
pub use heads::head_of;
pub use length::{is_long_stream, stream_length};
pub use loaded::loads_many;
pub use objects::write_objects;
pub use ready::{Ready, make_ready};
pub use stream::write_stream;
pub use tips::write_tips;
