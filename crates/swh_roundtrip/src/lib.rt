//! That what was cooked as a stream loads back: laws over the definitions of those who write streams and of those who
//! read them.
//! Stands on `swh_fastcook` for the text, and on `swh_fastgrammar`, `swh_fastrows`, `swh_fastmeaning` and
//! `swh_fastload` for what a text is and means.
//! Callers may rely on: the text of what a stream carries, with the head that is told, means the snapshot that its root
//! loads as, and makes nothing else but what is held.
#![tactic(auto)]

mod archives;
mod back;
mod grammar;
mod meaning;
mod trees;

pub use archives::histories_hold_named_bodies;
pub use back::{reached_streams_load_back, streams_load_back, what_was_cooked_loads_back};
pub use grammar::cooked_texts_are_streams;
pub use meaning::objects_are_made_again;
pub use trees::{files_make_their_directory, folders_are_held};
