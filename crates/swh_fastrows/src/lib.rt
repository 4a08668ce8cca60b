//! Rows of a stream over a window of the source, and the parts of commands that are rows or data (git-fast-import(1),
//! input format).
//! Stands on `swh_base`, `swh_outside`, `swh_fastlex`, `swh_fastgrammar` and `swh_fastlines`.
//! Callers may rely on: a line is looked at before it is taken; a part is read exactly where the grammar has it, and
//! where it is not there the reason and its place are told, a limit before the grammar for the same bytes.
#![tactic(auto)]

mod ahead;
mod data_rows;
mod fail;
mod hold;
mod laws;
mod optional;
mod part_lines;
mod refusing;
mod row_source;
mod whole;

pub use data_rows::data;
pub use fail::{Outside, ReadFail};
pub use laws::limit_of_a_stream;
pub use optional::{
    named_commit, optional_encoding, optional_mark, optional_person, person, skip_oid,
};
pub use part_lines::commit_line;
pub use refusing::{peek, refused_line};
pub use row_source::RowReader;
pub use whole::next_line;
