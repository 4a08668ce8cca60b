//! How long the texts of all rows under a directory are together, where each row has a text of its own: found over the
//! directories, each taken apart once, however many paths lead to it.
//! Stands on `swh_pathwalk`, which has the walk over paths, on `swh_postorder`, in whose order children come first, and
//! on `swh_fastwrite`, which has how a path is quoted.
//! Callers may rely on: the length that is found is that of the rows, or both are more than 2 to the 32nd; no call
//! fails but for want of memory.
#![tactic(auto)]

mod sums;
mod tally;
mod weight;

pub use sums::{PathSums, length_under, path_sums};
pub use tally::plus;
pub use weight::{Weigh, Weight};
