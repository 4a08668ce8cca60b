//! Jobs, in a job file and in memory of their own.
ghost use Rattle.std.specs.Prelude.{◌≡◌, IfOk, option_map, string_bytes};
ghost use Rattle.std.specs.List.{AllByRecursion};
ghost use Rattle.std.specs.Option.{option_copied};
ghost use Rattle.swh_jobs.specs.Answers.{job_of, input_of, owned_jobs};
ghost use Rattle.swh_jobs.specs.Job.{IsJob};
ghost use Rattle.swh_jobs.specs.Spelled.{spelled_input, spelled_job, all_spelled};

use std::alloc::Global;
use swh_base::{Bytes, Memory, Url, UrlFault};

/// Where an input stands, by its kind. Each path has 1 to 4,096 bytes without TAB and LF.
#[derive(Debug, Drop)]
pub enum JobInput {
    /// A stream, and the head that is named for it: a ref other than `HEAD`.
    Fast { path: String, head: Option<Bytes> },
    /// A folder, and the listing of its modes.
    Dir { path: String, modes: Option<String> },
    /// A batch of objects, and its refs.
    Batch { path: String, refs: String },
}

/// An origin, and where the input stands that is loaded for it.
#[derive(Debug, Drop)]
pub struct JobLine {
    pub url: Url,
    pub input: JobInput,
}

/// An input whose paths stand in a job file.
#[derive(Clone, Copy, Debug)]
pub enum SpelledInput<'a> {
    Fast {
        path: &'a str,
        head: Option<&'a [u8]>,
    },
    Dir {
        path: &'a str,
        modes: Option<&'a str>,
    },
    Batch {
        path: &'a str,
        refs: &'a str,
    },
}

/// A job whose texts stand in a job file.
#[derive(Clone, Copy, Debug)]
pub struct SpelledJob<'a> {
    pub url: &'a str,
    pub input: SpelledInput<'a>,
}

fn owned_head(alloc: Global, head: Option<&[u8]>) -> Result<Option<Bytes>, Memory>
    ensures { IfOk result (λ owned. owned ≡ option_copied head.entry) }
{
    match head {
        Some(head) => Ok(Some(Bytes::from_slice(alloc, head)?)),
        None => Ok(None),
    }
}

fn owned_path(alloc: Global, path: &str) -> Result<String, Memory>
    ensures { IfOk result (λ owned. string_bytes owned ≡ path.now) }
{
    let owned = String::from_str(alloc, path)?;
    Ok(owned)
}

fn owned_modes(alloc: Global, modes: Option<&str>) -> Result<Option<String>, Memory>
    ensures { IfOk result (λ owned. option_map string_bytes owned ≡ option_copied modes.entry) }
{
    match modes {
        Some(path) => Ok(Some(owned_path(alloc, path)?)),
        None => Ok(None),
    }
}

fn owned_input(alloc: Global, input: &SpelledInput<'_>) -> Result<JobInput, Memory>
    ensures { IfOk result (λ owned. input_of owned ≡ spelled_input input.now) }
{
    match *input {
        SpelledInput::Fast { path, head } => {
            let path = owned_path(alloc, path)?;
            let head = owned_head(alloc, head)?;
            Ok(JobInput::Fast { path, head })
        }
        SpelledInput::Dir { path, modes } => {
            let path = owned_path(alloc, path)?;
            let modes = owned_modes(alloc, modes)?;
            Ok(JobInput::Dir { path, modes })
        }
        SpelledInput::Batch { path, refs } => {
            let path = owned_path(alloc, path)?;
            let refs = owned_path(alloc, refs)?;
            Ok(JobInput::Batch { path, refs })
        }
    }
}

fn owned(alloc: Global, job: &SpelledJob<'_>) -> Result<JobLine, Memory>
    requires { IsJob (spelled_job job.now) }
    ensures { IfOk result (λ line. job_of line ≡ spelled_job job.now) }
{
    let url = match Url::new(alloc, job.url) {
        Ok(url) => url,
        Err(UrlFault::BadUrl) => unreachable!(),
        Err(UrlFault::Memory) => return Err(Memory),
    };
    let input = owned_input(alloc, &job.input)?;
    Ok(JobLine { url, input })
}

/// The jobs in memory of their own.
pub fn all_owned(alloc: Global, jobs: &[SpelledJob<'_>]) -> Result<Vec<JobLine>, Memory>
    requires { AllByRecursion IsJob (all_spelled jobs.now) }
    ensures { IfOk result (λ lines. owned_jobs lines.items ≡ all_spelled jobs.now) }
{
    let mut lines = Vec::new(alloc);
    for job in jobs {
        lines.push(owned(alloc, job)?)?;
    }
    Ok(lines)
}
