//! Loads jobs into an open archive, one after the other, and writes their lines.
//! Stands on the loader and the keeper.
//! Callers may rely on: each job's load between two states of the archive, and a line of each job, in the jobs' order.
#![tactic(auto)]

mod dated;
mod lines;
mod loading;

pub use dated::DatedJob;
pub use loading::{Report, load_all};
