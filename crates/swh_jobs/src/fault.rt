//! Why bytes are no job file.
ghost use Rattle.std.specs.Prelude.{◌≡◌};
ghost use Rattle.swh_jobs.specs.declared.fault.JobsFault.TheVariants.{Memory as OutOfMemory};

use std::alloc::AllocFailed;
use swh_base::Memory;

/// What is wrong with a line: `Limit` where it holds, else the first of the others that holds.
#[derive(Clone, Copy, Debug, PartialEq, Eq)]
pub enum JobWhy {
    /// The line spells no job.
    Form,
    /// The line spells a job, and a line before it has its origin.
    Origin,
    /// The line is the 257th, whatever stands in it.
    Limit,
}

/// Why bytes give no jobs.
#[derive(Clone, Copy, Debug, PartialEq, Eq)]
pub enum JobsFault {
    /// The bytes are no job file: the first line that breaks, counted from 1, and why it does.
    Bad { line: u64, why: JobWhy },
    /// Memory ran out.
    Memory,
}

impl From<Memory> for JobsFault {
    ghost from_gives = { λ _ e. e ≡ OutOfMemory };

    fn from(_e: Memory) -> JobsFault {
        JobsFault::Memory
    }
}

impl<T: Drop> From<AllocFailed<T>> for JobsFault {
    ghost from_gives = { λ _ e. e ≡ OutOfMemory };

    fn from(_e: AllocFailed<T>) -> JobsFault {
        JobsFault::Memory
    }
}
