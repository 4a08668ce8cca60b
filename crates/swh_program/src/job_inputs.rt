// The inputs of jobs, opened and given back.
ghost use Rattle.std.specs.Prelude.{◌≡◌, ◌≤◌, ◌+◌, ℕ, IfSome, IfOk, IfErr, map, option_map, string_bytes};
ghost use Rattle.swh_outside.specs.Faults.{Rose};
ghost use Rattle.swh_outside.specs.Views.{sources};
ghost use Rattle.swh_inputs.specs.Parts.{folders, parts, TellAll};
ghost use Rattle.swh_jobs.specs.Answers.{input_of, job_of, owned_jobs};
ghost use Rattle.swh_jobs.specs.Job.JobInput.{FolderAt as FolderIn, BatchAt};
ghost use Rattle.swh_program.specs.Dated.{AreSaid, standing, between, IsKept, IsSourceAt, IsFolderAt, IsListingAt, IsInputAt};
ghost use Rattle.swh_program.specs.Dated.{IsOpenedJob, AreOpenedJobs, IsSourceBack, IsFolderBack, IsListingBack};
ghost use Rattle.swh_program.specs.Dated.{IsGivenBack, AreGivenBack};
ghost use Rattle.swh_program.specs.Loading.{IsUnstarted};
ghost use Rattle.swh_exit.specs.declared.answer.Answer.TheVariants.{OutsideClock, Memory as OutOfMemory};

use std::alloc::Global;
use std::collections::VecDeque;
use swh_exit::Answer;
use swh_inputs::Input;
use swh_jobs::{JobInput, JobLine};
use swh_loader::Job;
use swh_outside::{Clock, Opened, Origins};
use swh_pool::DatedJob;

// Gives a source back, where there is one.
fn give_source_back<O: Origins>(origins: &mut O, stream: Opened<O::S>)
    ensures kept { IsKept O.tells
        (standing (O.file_at origins.old) (O.folder_at origins.old) (O.path_faults origins.old) (O.faults origins.old))
        (standing (O.file_at origins.new) (O.folder_at origins.new) (O.path_faults origins.new) (O.faults origins.new)) }
    ensures back { IsSourceBack (parts (sources O.S.tells O.S.left O.S.faults O.S.path)
        (folders O.F.tells O.F.holds O.F.faults O.F.opened_at)) (O.path_faults origins.old) (O.path_faults origins.new) stream }
{
    match stream {
        Opened::Found(source) => origins.back(source),
        Opened::NotFound | Opened::Failed | Opened::Memory => {}
    }
}

// Gives a folder back, where there is one.
fn give_folder_back<O: Origins>(origins: &mut O, folder: Opened<O::F>)
    ensures kept { IsKept O.tells
        (standing (O.file_at origins.old) (O.folder_at origins.old) (O.path_faults origins.old) (O.faults origins.old))
        (standing (O.file_at origins.new) (O.folder_at origins.new) (O.path_faults origins.new) (O.faults origins.new)) }
    ensures back { IsFolderBack (parts (sources O.S.tells O.S.left O.S.faults O.S.path)
        (folders O.F.tells O.F.holds O.F.faults O.F.opened_at)) (O.path_faults origins.old) (O.path_faults origins.new) folder }
{
    match folder {
        Opened::Found(folder) => origins.back_folder(folder),
        Opened::NotFound | Opened::Failed | Opened::Memory => {}
    }
}

// Gives a listing back, where there is one.
fn give_listing_back<O: Origins>(origins: &mut O, modes: Option<Opened<O::S>>)
    ensures kept { IsKept O.tells
        (standing (O.file_at origins.old) (O.folder_at origins.old) (O.path_faults origins.old) (O.faults origins.old))
        (standing (O.file_at origins.new) (O.folder_at origins.new) (O.path_faults origins.new) (O.faults origins.new)) }
    ensures back { IsListingBack (parts (sources O.S.tells O.S.left O.S.faults O.S.path)
        (folders O.F.tells O.F.holds O.F.faults O.F.opened_at)) (O.path_faults origins.old) (O.path_faults origins.new) modes }
{
    match modes {
        Some(stream) => give_source_back(origins, stream),
        None => {}
    }
}

// Gives the parts of an input back.
fn give_back<O: Origins>(origins: &mut O, input: Input<O::S, O::F>)
    ensures kept { IsKept O.tells
        (standing (O.file_at origins.old) (O.folder_at origins.old) (O.path_faults origins.old) (O.faults origins.old))
        (standing (O.file_at origins.new) (O.folder_at origins.new) (O.path_faults origins.new) (O.faults origins.new)) }
    ensures back { IsGivenBack (parts (sources O.S.tells O.S.left O.S.faults O.S.path)
        (folders O.F.tells O.F.holds O.F.faults O.F.opened_at)) (O.path_faults origins.old) (O.path_faults origins.new) input }
{
    match input {
        Input::Fast { stream, head: _ } => give_source_back(origins, stream),
        Input::Dir { folder, modes } => {
            give_folder_back(origins, folder);
            give_listing_back(origins, modes);
        }
        Input::Batch { objects, refs } => {
            give_source_back(origins, objects);
            give_source_back(origins, refs);
        }
    }
}

/// Gives the inputs of these jobs back.
pub fn give_all_back<O: Origins>(origins: &mut O, mut jobs: Vec<DatedJob<O::S, O::F>>)
    ensures kept { IsKept O.tells
        (standing (O.file_at origins.old) (O.folder_at origins.old) (O.path_faults origins.old) (O.faults origins.old))
        (standing (O.file_at origins.new) (O.folder_at origins.new) (O.path_faults origins.new) (O.faults origins.new)) }
    ensures back { AreGivenBack (parts (sources O.S.tells O.S.left O.S.faults O.S.path)
        (folders O.F.tells O.F.holds O.F.faults O.F.opened_at)) (O.path_faults origins.old) (O.path_faults origins.new) jobs.items }
{
    'jobs: while let Some(dated) = jobs.pop() {
        let DatedJob { job, date: _ } = dated;
        let Job { origin: _, input } = job;
        give_back(origins, input);
    }
    jobs.destroy_empty();
}

// Opens the source at a path.
fn open_source<O: Origins>(origins: &mut O, path: &str) -> Result<Opened<O::S>, Answer>
    ensures opened { IfOk result (IsSourceAt (parts (sources O.S.tells O.S.left O.S.faults O.S.path)
        (folders O.F.tells O.F.holds O.F.faults O.F.opened_at))
        (between O.tells (standing (O.file_at origins.old) (O.folder_at origins.old) (O.path_faults origins.old) (O.faults origins.old))
        (standing (O.file_at origins.new) (O.folder_at origins.new) (O.path_faults origins.new) (O.faults origins.new))) path.now) }
    ensures err { IfErr result (λ answer. answer ≡ OutOfMemory) }
    ensures told { O.tells → O.S.tells }
    ensures kept { IsKept O.tells
        (standing (O.file_at origins.old) (O.folder_at origins.old) (O.path_faults origins.old) (O.faults origins.old))
        (standing (O.file_at origins.new) (O.folder_at origins.new) (O.path_faults origins.new) (O.faults origins.new)) }
{
    match origins.file(path) {
        Opened::Memory => Err(Answer::Memory),
        stream => Ok(stream),
    }
}

// Opens the folder at a path.
fn open_folder<O: Origins>(origins: &mut O, path: &str) -> Result<Opened<O::F>, Answer>
    ensures opened { IfOk result (IsFolderAt (parts (sources O.S.tells O.S.left O.S.faults O.S.path)
        (folders O.F.tells O.F.holds O.F.faults O.F.opened_at))
        (between O.tells (standing (O.file_at origins.old) (O.folder_at origins.old) (O.path_faults origins.old) (O.faults origins.old))
        (standing (O.file_at origins.new) (O.folder_at origins.new) (O.path_faults origins.new) (O.faults origins.new))) path.now) }
    ensures err { IfErr result (λ answer. answer ≡ OutOfMemory) }
    ensures told { O.tells → O.F.tells }
    ensures kept { IsKept O.tells
        (standing (O.file_at origins.old) (O.folder_at origins.old) (O.path_faults origins.old) (O.faults origins.old))
        (standing (O.file_at origins.new) (O.folder_at origins.new) (O.path_faults origins.new) (O.faults origins.new)) }
{
    match origins.folder(path) {
        Opened::Memory => Err(Answer::Memory),
        folder => Ok(folder),
    }
}

// Opens the listing at a path, where one is named.
fn open_listing<O: Origins>(
    origins: &mut O,
    path: &Option<String>,
) -> Result<Option<Opened<O::S>>, Answer>
    ensures opened { IfOk result (IsListingAt (parts (sources O.S.tells O.S.left O.S.faults O.S.path)
        (folders O.F.tells O.F.holds O.F.faults O.F.opened_at))
        (between O.tells (standing (O.file_at origins.old) (O.folder_at origins.old) (O.path_faults origins.old) (O.faults origins.old))
        (standing (O.file_at origins.new) (O.folder_at origins.new) (O.path_faults origins.new) (O.faults origins.new))) (option_map string_bytes path.now)) }
    ensures err { IfErr result (λ answer. answer ≡ OutOfMemory) }
    ensures told { O.tells → IfOk result (λ modes. IfSome modes (λ _. O.S.tells)) }
    ensures kept { IsKept O.tells
        (standing (O.file_at origins.old) (O.folder_at origins.old) (O.path_faults origins.old) (O.faults origins.old))
        (standing (O.file_at origins.new) (O.folder_at origins.new) (O.path_faults origins.new) (O.faults origins.new)) }
{
    match path {
        Some(path) => match open_source(origins, path.as_str()) {
            Ok(stream) => Ok(Some(stream)),
            Err(answer) => Err(answer),
        },
        None => Ok(None),
    }
}

// Opens the folder at a path, and then its listing. Where memory is wanting nothing stays open.
fn open_dir<O: Origins>(
    origins: &mut O,
    path: &str,
    modes: &Option<String>,
) -> Result<Input<O::S, O::F>, Answer>
    ensures opened { IfOk result (IsInputAt (parts (sources O.S.tells O.S.left O.S.faults O.S.path)
        (folders O.F.tells O.F.holds O.F.faults O.F.opened_at))
        (between O.tells (standing (O.file_at origins.old) (O.folder_at origins.old) (O.path_faults origins.old) (O.faults origins.old))
        (standing (O.file_at origins.new) (O.folder_at origins.new) (O.path_faults origins.new) (O.faults origins.new))) (FolderIn path.now (option_map string_bytes modes.now))) }
    ensures err { IfErr result (λ answer. answer ≡ OutOfMemory) }
    ensures told { O.tells → IfOk result (TellAll (parts (sources O.S.tells O.S.left O.S.faults O.S.path)
        (folders O.F.tells O.F.holds O.F.faults O.F.opened_at))) }
    ensures kept { IsKept O.tells
        (standing (O.file_at origins.old) (O.folder_at origins.old) (O.path_faults origins.old) (O.faults origins.old))
        (standing (O.file_at origins.new) (O.folder_at origins.new) (O.path_faults origins.new) (O.faults origins.new)) }
{
    let folder = match open_folder(origins, path) {
        Ok(folder) => folder,
        Err(answer) => return Err(answer),
    };
    match open_listing(origins, modes) {
        Ok(modes) => Ok(Input::Dir { folder, modes }),
        Err(answer) => {
            give_folder_back(origins, folder);
            Err(answer)
        }
    }
}

// Opens the batch at a path, and then its refs. Where memory is wanting nothing stays open.
fn open_batch<O: Origins>(
    origins: &mut O,
    path: &str,
    refs: &str,
) -> Result<Input<O::S, O::F>, Answer>
    ensures opened { IfOk result (IsInputAt (parts (sources O.S.tells O.S.left O.S.faults O.S.path)
        (folders O.F.tells O.F.holds O.F.faults O.F.opened_at))
        (between O.tells (standing (O.file_at origins.old) (O.folder_at origins.old) (O.path_faults origins.old) (O.faults origins.old))
        (standing (O.file_at origins.new) (O.folder_at origins.new) (O.path_faults origins.new) (O.faults origins.new))) (BatchAt path.now refs.now)) }
    ensures err { IfErr result (λ answer. answer ≡ OutOfMemory) }
    ensures told { O.tells → IfOk result (TellAll (parts (sources O.S.tells O.S.left O.S.faults O.S.path)
        (folders O.F.tells O.F.holds O.F.faults O.F.opened_at))) }
    ensures kept { IsKept O.tells
        (standing (O.file_at origins.old) (O.folder_at origins.old) (O.path_faults origins.old) (O.faults origins.old))
        (standing (O.file_at origins.new) (O.folder_at origins.new) (O.path_faults origins.new) (O.faults origins.new)) }
{
    let objects = match open_source(origins, path) {
        Ok(objects) => objects,
        Err(answer) => return Err(answer),
    };
    match open_source(origins, refs) {
        Ok(refs) => Ok(Input::Batch { objects, refs }),
        Err(answer) => {
            give_source_back(origins, objects);
            Err(answer)
        }
    }
}

// Opens all parts of an input, in their order.
fn open_input<O: Origins>(origins: &mut O, input: JobInput) -> Result<Input<O::S, O::F>, Answer>
    ensures opened { IfOk result (IsInputAt (parts (sources O.S.tells O.S.left O.S.faults O.S.path)
        (folders O.F.tells O.F.holds O.F.faults O.F.opened_at))
        (between O.tells (standing (O.file_at origins.old) (O.folder_at origins.old) (O.path_faults origins.old) (O.faults origins.old))
        (standing (O.file_at origins.new) (O.folder_at origins.new) (O.path_faults origins.new) (O.faults origins.new))) (input_of input)) }
    ensures err { IfErr result (λ answer. answer ≡ OutOfMemory) }
    ensures told { O.tells → IfOk result (TellAll (parts (sources O.S.tells O.S.left O.S.faults O.S.path)
        (folders O.F.tells O.F.holds O.F.faults O.F.opened_at))) }
    ensures kept { IsKept O.tells
        (standing (O.file_at origins.old) (O.folder_at origins.old) (O.path_faults origins.old) (O.faults origins.old))
        (standing (O.file_at origins.new) (O.folder_at origins.new) (O.path_faults origins.new) (O.faults origins.new)) }
{
    match input {
        JobInput::Fast { path, head } => match open_source(origins, path.as_str()) {
            Ok(stream) => Ok(Input::Fast { stream, head }),
            Err(answer) => Err(answer),
        },
        JobInput::Dir { path, modes } => open_dir(origins, path.as_str(), &modes),
        JobInput::Batch { path, refs } => open_batch(origins, path.as_str(), refs.as_str()),
    }
}

// Opens the input of a job, after a look at the clock.
fn open_job<O: Origins, C: Clock>(
    origins: &mut O,
    clock: &mut C,
    line: JobLine,
) -> Result<DatedJob<O::S, O::F>, Answer>
    ensures opened { IfOk result (IsOpenedJob (parts (sources O.S.tells O.S.left O.S.faults O.S.path)
        (folders O.F.tells O.F.holds O.F.faults O.F.opened_at))
        (between O.tells (standing (O.file_at origins.old) (O.folder_at origins.old) (O.path_faults origins.old) (O.faults origins.old))
        (standing (O.file_at origins.new) (O.folder_at origins.new) (O.path_faults origins.new) (O.faults origins.new))) (job_of line)) }
    ensures date { C.tells → IfOk result (λ opened. opened.date ≡ C.time clock.old 0) }
    ensures next { C.tells → (k : ℕ) → C.time clock.new k ≡ C.time clock.old (k + 1) }
    ensures err { IfErr result IsUnstarted }
    ensures clock_cause { IfErr result (λ answer. answer ≡ OutsideClock
        → Rose (C.faults clock.old) (C.faults clock.new)) }
    ensures clock_later { C.faults clock.old ≤ C.faults clock.new }
    ensures kept { IsKept O.tells
        (standing (O.file_at origins.old) (O.folder_at origins.old) (O.path_faults origins.old) (O.faults origins.old))
        (standing (O.file_at origins.new) (O.folder_at origins.new) (O.path_faults origins.new) (O.faults origins.new)) }
{
    let Ok(date) = clock.now() else {
        return Err(Answer::OutsideClock);
    };
    let JobLine { url, input } = line;
    match open_input(origins, input) {
        Ok(input) => {
            let job = Job { origin: url, input };
            Ok(DatedJob { job, date })
        }
        Err(answer) => Err(answer),
    }
}

/// Opens the inputs of these jobs in their order, each after a look at the clock. Where the clock fails or memory runs
/// out, those that were opened are given back.
pub fn open_inputs<O: Origins, C: Clock>(
    alloc: Global,
    origins: &mut O,
    clock: &mut C,
    lines: Vec<JobLine>,
) -> Result<Vec<DatedJob<O::S, O::F>>, Answer>
    ensures opened { IfOk result (λ jobs. AreOpenedJobs (parts (sources O.S.tells O.S.left O.S.faults O.S.path)
        (folders O.F.tells O.F.holds O.F.faults O.F.opened_at))
        (between O.tells (standing (O.file_at origins.old) (O.folder_at origins.old) (O.path_faults origins.old) (O.faults origins.old))
        (standing (O.file_at origins.new) (O.folder_at origins.new) (O.path_faults origins.new) (O.faults origins.new))) (owned_jobs lines.items) jobs.items) }
    ensures said { C.tells → IfOk result (λ jobs. AreSaid (C.time clock.old) (map (λ j. j.date) jobs.items)) }
    ensures err { IfErr result IsUnstarted }
    ensures clock_cause { IfErr result (λ answer. answer ≡ OutsideClock
        → Rose (C.faults clock.old) (C.faults clock.new)) }
    ensures clock_later { C.faults clock.old ≤ C.faults clock.new }
    ensures kept { IsKept O.tells
        (standing (O.file_at origins.old) (O.folder_at origins.old) (O.path_faults origins.old) (O.faults origins.old))
        (standing (O.file_at origins.new) (O.folder_at origins.new) (O.path_faults origins.new) (O.faults origins.new)) }
{
    let mut opened = match Vec::with_capacity(alloc, lines.len()) {
        Ok(opened) => opened,
        Err(_) => return Err(Answer::Memory),
    };
    let mut left = VecDeque::from_vec(lines);
    'lines: while let Some(line) = left.pop_front() {
        match open_job(origins, clock, line) {
            Ok(job) => opened.push_reserved(job),
            Err(answer) => {
                give_all_back(origins, opened);
                return Err(answer);
            }
        }
    }
    Ok(opened)
}
