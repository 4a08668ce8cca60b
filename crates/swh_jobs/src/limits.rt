//! The limits of a job file.
use swh_base::URL_LIMIT;

/// A job file has no more lines.
pub const JOBS_LIMIT: usize = 256;

/// The bytes of the path of an input.
pub const INPUT_PATH_LIMIT: usize = 4_096;

/// No job file has more bytes: the longest kind, the URL and two paths of each line, with a byte after each of them. A head is
/// shorter than a path.
pub const LONGEST: usize = JOBS_LIMIT
    * (5 + 1 + URL_LIMIT + 1 + INPUT_PATH_LIMIT + 1 + INPUT_PATH_LIMIT + 1);
