//! Loads the input of an origin into an archive, as one visit, and reports it by a line.
//! Stands on a load over a keeper (`swh_keeperload`), on inputs of three kinds (`swh_inputs`), on `swh_swhid`, `hex`,
//! `percent_encoding` and `itoa` for its lines, and on crates below these; crates.txt lists all.
//! Callers may rely on: a load adds the events of its visit alone, with nothing but what its input may give before its
//! reading stops; a visit whose load stopped has no end; a crash at any device call leaves the events up to some place
//! in their order, with all that were acknowledged; and the line says how the visit ended.
#![tactic(auto)]

mod batching;
mod detail;
mod end;
mod job;
mod loading;
mod outcome;
mod report;
mod streaming;
mod task;
mod writing;

pub use end::{BadInput, End, Loaded};
pub use job::Job;
pub use loading::load_one;
pub use report::{report_limit, report_line};
pub use swh_fastload::StreamWhy;
pub use swh_ingest::{LoadFault, Stop, Turn, Worker};
pub use swh_inputs::{BadText, Input};
