//! The lines of a stream's commands, and the words in them (git-fast-import(1), input format).
//! Stands on `swh_base`, `swh_fastlex`, `swh_fastgrammar` and `hex`.
//! Callers may rely on: a line is told to open data, to say a change or to be left out, and a text to be a word of a
//! line, exactly where the grammar has it, and one with a ref or a path that is too long is told so first. Which limit
//! the words of a line pass is told of the line alone, wherever it stands.
#![tactic(auto)]

mod change_lines;
mod data_lines;
mod item_lines;
mod left_out;
mod limits;
mod line_words;

pub use change_lines::{ChangeLine, change_line};
pub use data_lines::{DataLine, data_line};
pub use item_lines::{ItemLine, item_line};
pub use left_out::is_left_out;
pub use limits::word_limit;
pub use line_words::{
    commit_word, id_of, is_encoding, is_zeros, mark_of, mode_of, ref_word, tag_word,
};
