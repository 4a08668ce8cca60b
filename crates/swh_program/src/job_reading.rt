// Reads the job file of a run.
ghost use Rattle.std.specs.Prelude.{◌≡◌, ◌≢◌, ◌+◌, ◌≤◌, IfOk, IfErr, IsErrOf};
ghost use Rattle.swh_fastlex.specs.Whole.{IsFront, GivesAtMost};
ghost use Rattle.swh_fastlex.specs.declared.fault.SourceFault.TheVariants.{Failed, Limit};
ghost use Rattle.swh_outside.specs.Faults.{Rose};
ghost use Rattle.swh_jobs.specs.Answers.{owned_jobs};
ghost use Rattle.swh_jobs.specs.JobFile.{AreJobs, IsJobFile, IsJobFileFault};
ghost use Rattle.swh_program.specs.Jobs.{
  job_why_word,
  bad_job_line,
  AreJobsAt,
  IsReadRefusal,
  IsJobRefusal,
  IsJobRefused,
};
ghost use Rattle.swh_exit.specs.declared.answer.Answer.TheVariants.{OutsideSource};

use itoa::Buffer;
use std::alloc::Global;
use swh_base::{Bytes, Memory};
use swh_exit::Answer;
use swh_fastlex::{SourceFault, WINDOW, read_front};
use swh_jobs::{JobLine, JobWhy, JobsFault, LONGEST, parse_jobs};
use swh_outside::{Opened, Origins, Source};

fn word_of_why(why: JobWhy) -> &'static [u8]
    ensures { result.now ≡ job_why_word why }
{
    match why {
        JobWhy::Form => b"form".as_slice(),
        JobWhy::Origin => b"origin".as_slice(),
        JobWhy::Limit => b"limit".as_slice(),
    }
}

// What is printed of the first line that breaks.
fn bad_job_line(alloc: Global, line: u64, why: JobWhy) -> Result<Bytes, Memory>
    ensures { IfOk result (λ text. text ≡ bad_job_line line why) }
{
    let mut digits = Buffer::new();
    let mut text = Vec::new(alloc);
    text.extend_from_slice(b"swharc: job line ")?;
    text.extend_from_slice(digits.format(line).as_bytes())?;
    text.extend_from_slice(b": ")?;
    text.extend_from_slice(word_of_why(why))?;
    text.push(b'\n')?;
    Ok(Bytes::from_vec(text))
}

// The answer that tells the first line of these bytes that breaks.
fn refuse_line(alloc: Global, bytes: &[u8], line: u64, why: JobWhy) -> Answer
    requires { IsJobFileFault bytes.now line why }
    ensures { IsReadRefusal bytes.now result }
{
    match bad_job_line(alloc, line, why) {
        Ok(text) => Answer::BadJob { text },
        Err(_) => Answer::Memory,
    }
}

// The jobs of these bytes.
fn jobs_of(alloc: Global, bytes: &[u8]) -> Result<Vec<JobLine>, Answer>
    ensures jobs { IfOk result (λ jobs. IsJobFile bytes.now (owned_jobs jobs.items)) }
    ensures refused { IfErr result (λ answer. IsReadRefusal bytes.now answer) }
{
    match parse_jobs(alloc, bytes) {
        Ok(jobs) => Ok(jobs),
        Err(JobsFault::Bad { line, why }) => Err(refuse_line(alloc, bytes, line, why)),
        Err(JobsFault::Memory) => Err(Answer::Memory),
    }
}

// A front of a job file, longer than any is where it is not all of it. No more than a window above that length is
// taken.
fn read_job_file<S: Source>(alloc: Global, source: &mut S) -> Result<Vec<u8>, SourceFault>
    ensures front { S.tells → IfOk result (λ bytes.
        IsFront (S.left source.old) (S.left source.new) LONGEST bytes.items) }
    ensures given { S.tells → GivesAtMost (S.given source.old) (S.given source.new) (LONGEST + WINDOW) }
    ensures same_path { S.path source.new ≡ S.path source.old }
    ensures later { S.faults source.old ≤ S.faults source.new }
    ensures not_limit { IfErr result (λ fault. fault ≢ Limit) }
    ensures cause { IsErrOf result Failed → Rose (S.faults source.old) (S.faults source.new) }
{
    read_front(alloc, source, LONGEST)
}

/// The jobs of the job file at a path. Of a longer file than any job file is, no more is read than shows its first line
/// that breaks.
pub fn read_jobs<O: Origins>(
    alloc: Global,
    desk: &mut O,
    path: &str,
) -> Result<Vec<JobLine>, Answer>
    ensures good { IfOk result (λ jobs. AreJobs (owned_jobs jobs.items)) }
    ensures there { O.tells → IfOk result (λ jobs. AreJobsAt (O.file_at desk.old) path.now (owned_jobs jobs.items)) }
    ensures one_of { IfErr result (λ answer. IsJobRefusal answer) }
    ensures refused { O.tells → IfErr result (λ answer. IsJobRefused (O.file_at desk.old) path.now answer) }
    ensures later { O.faults desk.old ≤ O.faults desk.new }
    ensures cause { IfErr result (λ answer. answer ≡ OutsideSource → Rose (O.faults desk.old) (O.faults desk.new)) }
{
    let mut source = match desk.file(path) {
        Opened::Found(source) => source,
        Opened::NotFound => return Err(Answer::NoJobFile),
        Opened::Failed => return Err(Answer::OutsideSource),
        Opened::Memory => return Err(Answer::Memory),
    };
    let read = read_job_file(alloc, &mut source);
    desk.back(source);
    match read {
        Ok(bytes) => jobs_of(alloc, &bytes),
        Err(SourceFault::Failed) => Err(Answer::OutsideSource),
        Err(SourceFault::Limit) => unreachable!(),
        Err(SourceFault::Memory) => Err(Answer::Memory),
    }
}
