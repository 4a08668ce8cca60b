//! What the bytes of a job file determine.
ghost use Rattle.std.specs.Prelude.{◌≡◌, ◌++◌, ◌<◌, ◌≤◌, ℕ, List, length};
ghost use Rattle.swh_jobs.specs.Job.{Job};
ghost use Rattle.swh_jobs.specs.JobFile.{IsJobFile, IsJobFileFault};
ghost use Rattle.swh_jobs.specs.declared.fault.JobWhy.{JobWhy};

use crate::limits::LONGEST;

/// Bytes spell one list of jobs at most.
pub fn one_reading()
    ensures { (bytes : List ℕ) (jobs others : List Job) → IsJobFile bytes jobs → IsJobFile bytes others
        → jobs ≡ others }
{}

/// Bytes have one first line at most that breaks, and it breaks in one way.
pub fn one_fault()
    ensures { (bytes : List ℕ) (line other : ℕ) (why because : JobWhy) → IsJobFileFault bytes line why
        → IsJobFileFault bytes other because → (line ≡ other) × (why ≡ because) }
{}

/// Bytes with a line that breaks spell no jobs.
pub fn no_jobs()
    ensures { (bytes : List ℕ) (line : ℕ) (why : JobWhy) (jobs : List Job) → IsJobFileFault bytes line why
        → IsJobFile bytes jobs → ⊥ }
{}

/// A job file is not longer than the longest.
pub fn longest()
    ensures { (bytes : List ℕ) (jobs : List Job) → IsJobFile bytes jobs → length bytes ≤ LONGEST }
{}

/// What is found in a front of bytes that is longer than the longest job file is the fault of all the bytes.
pub fn fault_of_front()
    ensures { (front more : List ℕ) (line : ℕ) (why : JobWhy) → LONGEST < length front → IsJobFileFault front line why
        → IsJobFileFault (front ++ more) line why }
{}
