// Archives and jobs in memory.
ghost use Rattle.std.specs.Prelude.{All, IfOk};
ghost use Rattle.swh_pool.specs.Loads.{HasHead};

use std::alloc::Global;
use std::test::Fail;
use swh_base::{Bytes, Sha1Namer, Url};
use swh_fixtures::{Archive, kept, made_archive};
use swh_keeper::Keeper;
use swh_loader::{Input, Job, Worker};
use swh_memory::{MemoryDisk, MemoryFolder, MemorySource};
use swh_outside::{Gate, Opened};
use swh_pool::{DatedJob, load_all};

/// What the loads of three jobs leave.
#[derive(Drop)]
pub struct Left {
    /// The lines of the jobs.
    pub text: Bytes,
    pub store: MemoryDisk,
    pub ledger: MemoryDisk,
}

/// What an archive holds that was opened again.
#[derive(Drop)]
pub struct Held {
    pub events: usize,
    /// The visits of the first job's origin.
    pub visits: usize,
}

/// Opens an archive again.
pub fn open_again(alloc: Global, store: MemoryDisk, ledger: MemoryDisk) -> Result<Held, Fail> {
    let first = Url::new(alloc, "https://e.org/p")?;
    let keeper = kept(Keeper::open(alloc, Sha1Namer, store, ledger))?;
    let events = keeper.history().len();
    let visits = match keeper.visits(&first) {
        Some(visits) => visits.len(),
        None => 0,
    };
    let (_store, _ledger) = keeper.close();
    Ok(Held { events, visits })
}

fn dated(origin: Url, stream: Opened<MemorySource>) -> DatedJob<MemorySource, MemoryFolder>
    ensures { HasHead result }
{
    let input = Input::Fast { stream, head: None };
    DatedJob {
        job: Job { origin, input },
        date: 1_000_000_000,
    }
}

fn let_go(mut jobs: Vec<DatedJob<MemorySource, MemoryFolder>>) {
    'jobs: while let Some(dated) = jobs.pop() {
        let DatedJob { job, date: _date } = dated;
        let Job {
            origin: _origin,
            input: _input,
        } = job;
    }
    jobs.destroy_empty();
}

// Loads jobs, and gives their lines.
fn lines_of<G: Gate>(
    alloc: Global,
    gate: &G,
    keeper: &mut Archive<Sha1Namer>,
    jobs: &mut [DatedJob<MemorySource, MemoryFolder>],
) -> Result<Bytes, Fail>
    requires { All HasHead jobs.old }
{
    let worker = Worker {
        by: 1,
        gate,
        number: 1,
    };
    let report = load_all(alloc, &Sha1Namer, keeper, &worker, jobs)?;
    Ok(report.text)
}

// Loads jobs into an archive of no event.
fn load_anew<G: Gate>(
    alloc: Global,
    gate: &G,
    jobs: &mut [DatedJob<MemorySource, MemoryFolder>],
    ledger_failing: &[u64],
) -> Result<Left, Fail>
    requires { All HasHead jobs.old }
{
    let mut keeper = made_archive(alloc, Sha1Namer, ledger_failing, &[])?;
    let text = lines_of(alloc, gate, &mut keeper, jobs);
    let (store, ledger) = keeper.close();
    let text = text?;
    Ok(Left {
        text,
        store,
        ledger,
    })
}

fn three_jobs(
    alloc: Global,
    first: Opened<MemorySource>,
    second: Opened<MemorySource>,
    third: Opened<MemorySource>,
) -> Result<Vec<DatedJob<MemorySource, MemoryFolder>>, Fail>
    ensures { IfOk result (λ jobs. All HasHead jobs.items) }
{
    let p = Url::new(alloc, "https://e.org/p")?;
    let q = Url::new(alloc, "https://e.org/q")?;
    let r = Url::new(alloc, "https://e.org/r")?;
    let mut jobs = Vec::with_capacity(alloc, 3)?;
    jobs.push_reserved(dated(p, first));
    jobs.push_reserved(dated(q, second));
    jobs.push_reserved(dated(r, third));
    Ok(jobs)
}

/// Loads three inputs into an archive of no event, before this gate. The ledger's calls of these numbers fail, those of
/// its making counted.
pub fn load_three<G: Gate>(
    alloc: Global,
    gate: &G,
    first: Opened<MemorySource>,
    second: Opened<MemorySource>,
    third: Opened<MemorySource>,
    ledger_failing: &[u64],
) -> Result<Left, Fail> {
    let mut jobs = three_jobs(alloc, first, second, third)?;
    let left = load_anew(alloc, gate, jobs.as_mut_slice(), ledger_failing);
    let_go(jobs);
    left
}
