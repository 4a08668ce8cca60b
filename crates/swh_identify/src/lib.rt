//! The commands `identify` and `identify dir`: the bytes of a file, or a folder, named as a body of a kind.
//! Stands on `swh_exit` for what is told, on `swh_object` for bodies, on `swh_dirload` for folders, on `swh_swhid`, and
//! on crates below these whose types and definitions its clauses cite.
//! Callers may rely on: what stands at the path is named exactly where it is a body of the kind, and else it is told
//! why there is no name (`identify`); the same of a folder that becomes a directory (`identify_folder`).
#![tactic(auto)]

mod identify_command;
mod identify_folder_command;

pub use identify_command::identify;
pub use identify_folder_command::identify_folder;
