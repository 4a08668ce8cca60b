//! The directories of a folder, made of a table of all that stands in it.
//! Stands on `swh_dirfmt`, which writes directories, and on the objects and what makes them.
//! Callers may rely on: each object is given once, and after all that it names; the first folder of the table whose
//! directory is longer than a body may be is told before any is written; the directories of all folders are given, each
//! with an entry for all that stands in its folder, empty ones too; the snapshot whose branch `HEAD` is the folder's
//! own; and the folder's own directory is named where no object is kept.
#![tactic(auto)]

mod building;
mod directory;
mod given;
mod member;
mod naming;
mod sizes;
mod snapshot;
mod spot;

pub use building::make_directories;
pub use given::Given;
pub use member::Member;
pub use naming::name_directories;
pub use sizes::first_long;
pub use snapshot::make_snapshot;
pub use spot::Spot;
