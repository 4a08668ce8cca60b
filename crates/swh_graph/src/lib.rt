//! Calls over the graph of an archive: the log of a revision, the entry at a path, what a SWHID resolves to, and all
//! that is reached from a name.
//! Stands on `swh_base`, `swh_model`, `swh_dirfmt`, `swh_revfmt`, `swh_snpfmt`, `swh_swhid` and `swh_closure`.
//! Callers may rely on: each answer is the one that the archive determines; a refusal names the first name that is not
//! held, in the call's order, or the component of a path that leads nowhere.
#![tactic(auto)]

mod fault;
mod head;
mod history;
mod laws;
mod met;
mod named;
mod paths;
mod reaching;
mod reading;
mod resolving;
mod roots;

pub use fault::GraphFault;
pub use history::log;
pub use laws::{one_entry, one_log, one_path, one_reach, one_resolution};
pub use paths::at_path;
pub use reaching::reach;
pub use reading::{directory_at, release_at, revision_at, snapshot_at};
pub use resolving::resolve;
