// Jobs loaded one after the other.
ghost use Rattle.std.specs.Prelude.{◌≡◌, ◌↔◌, None, All, IfOk, OnErr, is_some, length};
ghost use Rattle.swh_outside.specs.Views.{disks, sources};
ghost use Rattle.swh_pool.specs.Lines.{ended, lines_of};
ghost use Rattle.swh_inputs.specs.Parts.{folders, parts};
ghost use Rattle.swh_pool.specs.Loads.{HasHead, AreLoaded, loading};
ghost use Rattle.swh_pool.specs.Stops.{AreStops, HaveNoDiskFault};

use crate::dated::DatedJob;
use crate::lines::Lines;
use std::alloc::Global;
use swh_base::{Bytes, Memory, Namer};
use swh_keeper::Keeper;
use swh_loader::{LoadFault, Loaded, Turn, Worker, load_one};
use swh_outside::{Disk, Folder, Gate, Source};

/// How jobs were loaded, and the lines that report it, both in the jobs' order.
#[derive(Drop)]
pub struct Report {
    pub outcomes: Vec<Result<Loaded, LoadFault>>,
    pub text: Bytes,
}

/// Loads the jobs one after the other, and writes their lines. The gate sees the worker's jobs as 1, 2 and so on.
///
/// # Errors
///
/// `Memory` where it is wanting for the outcomes and the lines. Nothing is loaded then: their room is taken first, by the
/// kinds of the inputs, so that no line is missing once a load has begun.
pub fn load_all<N: Namer, D: Disk, S: Source, F: Folder, G: Gate>(
    alloc: Global,
    namer: &N,
    keeper: &mut Keeper<N, D>,
    worker: &Worker<G>,
    jobs: &mut [DatedJob<S, F>],
) -> Result<Report, Memory>
    // A head is a ref.
    requires { All HasHead jobs.old }
    // Each load begins where the one before it ended.
    ensures loads { IfOk result (λ report. AreLoaded
        (loading N.id_of worker.now.by (parts (sources S.tells S.left S.faults S.path)
        (folders F.tells F.holds F.faults F.opened_at)) (disks D.tells D.file D.faults))
        jobs.old jobs.new keeper.old keeper.new report.outcomes.items) }
    // Once a disk has failed, each job is stopped before its visit.
    ensures stops { IfOk result (λ report. AreStops (is_some keeper.old.wounded) report.outcomes.items) }
    // A disk has failed afterwards exactly where one had before or a load says so.
    ensures unwounded { IfOk result (λ report. (keeper.new.wounded ≡ None)
        ↔ ((keeper.old.wounded ≡ None) × HaveNoDiskFault report.outcomes.items)) }
    ensures each { IfOk result (λ report. length report.outcomes.items ≡ length jobs.new) }
    // Each job has its line.
    ensures lines { IfOk result (λ report. report.text ≡ lines_of (ended jobs.new report.outcomes.items)) }
    ensures same_keeper { OnErr result (keeper.new ≡ keeper.old) }
    ensures same_jobs { OnErr result (jobs.new ≡ jobs.old) }
{
    let mut outcomes = Vec::with_capacity(alloc, jobs.len())?;
    let mut lines = Lines::with_room(alloc, jobs)?;
    let mut number: u32 = 0;
    'jobs: for dated in jobs.iter_mut() {
        number = number.saturating_add(1);
        let turn = Turn {
            worker: &*worker,
            job: number,
        };
        let kind = dated.job.input.kind();
        let outcome = load_one(alloc, namer, keeper, &turn, &mut dated.job, dated.date);
        lines.add(kind, &dated.job.origin, &outcome);
        outcomes.push_reserved(outcome);
    }
    let text = lines.into_text();
    Ok(Report { outcomes, text })
}
