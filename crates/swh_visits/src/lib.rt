//! The visits of an archive in memory, by their origins.
//! Stands on `swh_base` and `swh_model`.
//! Callers may rely on: the visits are the finite map of the archive, each call makes of it what its event does, and a
//! refusal leaves it as it was.
#![tactic(auto)]

mod fault;
mod list;
mod visits;

pub use fault::VisitFault;
pub use visits::Visits;
