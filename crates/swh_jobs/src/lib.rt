//! Job files: which origins are loaded, and where their inputs stand: streams, folders with listings, and batches with
//! refs.
//! Stands on `swh_base`.
//! Callers may rely on: exactly the grammar is read, and a refusal names the first line that breaks and why.
#![tactic(auto)]

mod fault;
mod job;
mod laws;
mod limits;
mod line;
mod reading;

pub use fault::{JobWhy, JobsFault};
pub use job::{JobInput, JobLine};
pub use laws::{fault_of_front, longest, no_jobs, one_fault, one_reading};
pub use limits::{INPUT_PATH_LIMIT, JOBS_LIMIT, LONGEST};
pub use reading::parse_jobs;
