//! The check of a whole archive: every stored body is read again, and the replay is counted.
//! Stands on `swh_base`, `swh_model`, `swh_outside`, `swh_store`, `swh_closure`, `swh_format` and `swh_keeper`.
//! Callers may rely on: a report counts the replay of the history, and a body that is told of as damaged was read with
//! another id, which never comes where the disks tell.
#![tactic(auto)]

mod bodies;
mod checking;
mod counting;
mod fault;
mod report;
mod runs;

pub use checking::check_all;
pub use fault::CheckFault;
pub use report::Report;
