// A job and its date.
use swh_loader::Job;

/// A job whose input was opened, and the date of its visit in seconds since 1970.
pub struct DatedJob<S, F> {
    pub job: Job<S, F>,
    pub date: u64,
}
