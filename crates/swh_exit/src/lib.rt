//! What a run comes to, what it prints and its status; and the archive in a folder, opened and given back, with what is
//! told where it is damaged.
//! Stands on `swh_keeper` and `swh_segment` for the archive, on `swh_outside`, on `swh_swhid` and `itoa` for what is
//! told, and on crates below these whose types and definitions its clauses cite.
//! Callers may rely on: an answer is printed with its status, or the sink has failed (`tell`); an archive that opens
//! stands for its history, and one that is refused is left as its answer says (`open_archive`); one that is given back
//! is own (`close_archive`).
#![tactic(auto)]

mod answer;
mod damage;
mod files;
mod opening;
mod text;

pub use answer::{Answer, Ending, tell};
pub use damage::tell_body;
pub use files::{ArchiveFiles, close_files, open_files, see_images};
pub use opening::{close_archive, open_archive};
pub use text::{Text, TextBuilder};
