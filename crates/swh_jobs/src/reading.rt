//! Job files read line by line.
ghost use Rattle.std.specs.Prelude.{◌≡◌, ◌≢◌, ◌≤◌, ◌∷◌, ◌++◌, [], List, IfOk, IfErr};
ghost use Rattle.swh_jobs.specs.Answers.{owned_jobs, SpellsNone, ExplainsJobs};
ghost use Rattle.swh_jobs.specs.Job.{line_text};
ghost use Rattle.swh_jobs.specs.JobFile.{AreJobs, IsJobFile};
ghost use Rattle.swh_jobs.specs.Reading.{IsFirstLine, AreOrigins, MayFollowJobs, ExplainsNext};
ghost use Rattle.swh_jobs.specs.Spelled.{spelled_job, all_spelled};

use crate::fault::{JobWhy, JobsFault};
use crate::job::{JobLine, SpelledJob, all_owned};
use crate::limits::JOBS_LIMIT;
use crate::line::spelled_line;
use std::alloc::Global;
use std::collections::BTreeSet;
use swh_base::split_at_byte;

// The line that bytes begin with, without its LF, and what stands after it.
fn first_line(bytes: &[u8]) -> (&[u8], &[u8])
    ensures { IsFirstLine bytes.now result.0.now result.1.now }
{
    match split_at_byte(bytes, b'\n') {
        Some(cut) => cut,
        None => (bytes, b""),
    }
}

// The job of the line that these bytes begin with, which may follow the jobs before it, and the bytes after that line.
fn next_job<'a>(
    before: &[SpelledJob<'a>],
    origins: &mut BTreeSet<&'a [u8]>,
    rest: &'a [u8],
) -> Result<(SpelledJob<'a>, &'a [u8]), JobsFault>
    requires good { AreJobs (all_spelled before.now) }
    requires known { AreOrigins origins.old.keys (all_spelled before.now) }
    ensures follows { IfOk result (λ x. MayFollowJobs (all_spelled before.now) (spelled_job x.0)) }
    ensures line { IfOk result (λ x. IsFirstLine rest.now (line_text (spelled_job x.0)) x.1.now) }
    ensures known { IfOk result (λ x. AreOrigins origins.new.keys (all_spelled before.now ++ spelled_job x.0 ∷ [])) }
    ensures err { IfErr result (ExplainsNext (all_spelled before.now) rest.now) }
{
    let line = before.len() as u64 + 1;
    if before.len() >= JOBS_LIMIT {
        return Err(JobsFault::Bad {
            line,
            why: JobWhy::Limit,
        });
    }
    let (text, behind) = first_line(rest);
    let Some(job) = spelled_line(text) else {
        return Err(JobsFault::Bad {
            line,
            why: JobWhy::Form,
        });
    };
    if !origins.insert(job.url.as_bytes())? {
        return Err(JobsFault::Bad {
            line,
            why: JobWhy::Origin,
        });
    }
    Ok((job, behind))
}

// The jobs as they stand in a job file. Origins are looked up in a set that strangers cannot make slow.
fn read_jobs(alloc: Global, bytes: &[u8]) -> Result<Vec<SpelledJob<'_>>, JobsFault>
    ensures ok { IfOk result (λ jobs. IsJobFile bytes.now (all_spelled jobs.items)) }
    ensures err { IfErr result (ExplainsJobs bytes.now) }
{
    let mut jobs = Vec::new(alloc);
    let mut origins = BTreeSet::new(alloc);
    let mut rest = bytes;
    while !rest.is_empty() {
        let (job, behind) = match next_job(&jobs, &mut origins, rest) {
            Ok(next) => next,
            Err(fault) => return Err(fault),
        };
        jobs.push(job)?;
        rest = behind;
    }
    Ok(jobs)
}

fn read_owned(alloc: Global, bytes: &[u8]) -> Result<Vec<JobLine>, JobsFault>
    ensures ok { IfOk result (λ jobs. IsJobFile bytes.now (owned_jobs jobs.items)) }
    ensures err { IfErr result (ExplainsJobs bytes.now) }
{
    let jobs = read_jobs(alloc, bytes)?;
    Ok(all_owned(alloc, &jobs)?)
}

/// The jobs of a job file, in their order and in time n log n of its length: up to 256 lines, none of an origin that a
/// line before it has. The LF of the last line may lack, and no bytes are no jobs. Fails with the first line that
/// breaks, or where memory runs out.
pub fn parse_jobs(alloc: Global, bytes: &[u8]) -> Result<Vec<JobLine>, JobsFault>
    // What is read is what the bytes spell.
    ensures ok { IfOk result (λ jobs. IsJobFile bytes.now (owned_jobs jobs.items)) }
    // What is refused spells no jobs, unless memory ran out,
    ensures none { IfErr result (SpellsNone bytes.now) }
    // and has this fault first.
    ensures fault { IfErr result (ExplainsJobs bytes.now) }
{
    read_owned(alloc, bytes)
}
