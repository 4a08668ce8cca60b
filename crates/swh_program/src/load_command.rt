// The command `load`.
ghost use Rattle.std.specs.Prelude.{◌≡◌, None};
ghost use Rattle.swh_outside.specs.Views.{disks};
ghost use Rattle.swh_jobs.specs.Answers.{owned_jobs};
ghost use Rattle.swh_jobs.specs.JobFile.{AreJobs};
ghost use Rattle.swh_exit.specs.Seen.{DepotFailed, ClockFailed};
ghost use Rattle.swh_exit.specs.Answers.{TellsDisk};
ghost use Rattle.swh_exit.specs.Archives.{SameElsewhere, old_archive, new_archive};
ghost use Rattle.swh_exit.specs.LeftAlone.{KeepsTheRest, IsArchiveRefusal, IsBeforeInputs};
ghost use Rattle.swh_program.specs.Load.{IsLoadedOrNot};
ghost use Rattle.swh_program.specs.LoadCommand.{givens_of, Loads};
ghost use Rattle.swh_program.specs.Loading.{IsKeptRun};
ghost use Rattle.swh_exit.specs.Own.{KeepsOwn};
ghost use Rattle.swh_exit.specs.declared.answer.Answer.TheVariants.{OutsideClock};

use crate::job_inputs::{give_all_back, open_inputs};
use crate::job_reading::read_jobs;
use crate::outside::{Outside, Shown};
use crate::telling::tell_loaded;
use std::alloc::Global;
use swh_base::Namer;
use swh_exit::{Answer, close_archive, open_archive};
use swh_jobs::JobLine;
use swh_keeper::Keeper;
use swh_loader::Worker;
use swh_outside::{Clock, Depot, Doors, Gate, Origins, Sink, Yard};
use swh_pool::load_all;

/// Who loads the jobs of a run.
const LOADER: u32 = 1;

impl<N: Namer, P: Depot, O: Origins, Y: Yard, K: Sink, C: Clock, D: Doors, G: Gate> Outside<
    N,
    P,
    O,
    Y,
    K,
    C,
    D,
    G,
> {
    // Loads jobs into an open archive, and tells how that ended.
    fn load_lines(
        &mut self,
        alloc: Global,
        keeper: &mut Keeper<N, P::D>,
        lines: Vec<JobLine>,
    ) -> Answer
        requires unwounded { keeper.old.wounded ≡ None }
        requires good { AreJobs (owned_jobs lines.items) }
        ensures load { IsKeptRun (givens_of (⟦<Self as Shown>⟧.span self.old self.new))
            (disks P.D.tells P.D.file P.D.faults)
            keeper.old keeper.new (owned_jobs lines.items) result }
        ensures clock_cause { result ≡ OutsideClock → ClockFailed (⟦<Self as Shown>⟧.span self.old self.new) }
        ensures same_depot { self.new.depot ≡ self.old.depot }
        ensures same_desk { self.new.desk ≡ self.old.desk }
        ensures same_sink { self.new.sink ≡ self.old.sink }
        ensures rest { KeepsTheRest (⟦<Self as Shown>⟧.span self.old self.new) }
    {
        let mut jobs = match open_inputs(alloc, &mut self.origins, &mut self.clock, lines) {
            Ok(jobs) => jobs,
            Err(answer) => return answer,
        };
        let worker = Worker {
            by: LOADER,
            gate: &self.gate,
            number: LOADER,
        };
        let loaded = load_all(alloc, &self.namer, keeper, &worker, jobs.as_mut_slice());
        let answer = tell_loaded(alloc, loaded);
        give_all_back(&mut self.origins, jobs);
        answer
    }

    // Loads jobs into the archive in a folder.
    fn load_jobs(&mut self, alloc: Global, dir: &str, lines: Vec<JobLine>) -> Answer
        requires { AreJobs (owned_jobs lines.items) }
        ensures load { IsLoadedOrNot (givens_of (⟦<Self as Shown>⟧.span self.old self.new))
            (old_archive dir.now (⟦<Self as Shown>⟧.span self.old self.new))
            (new_archive dir.now (⟦<Self as Shown>⟧.span self.old self.new))
            (owned_jobs lines.items) result }
        ensures own { P.tells → KeepsOwn N.id_of (old_archive dir.now (⟦<Self as Shown>⟧.span self.old self.new))
            (new_archive dir.now (⟦<Self as Shown>⟧.span self.old self.new)) result }
        ensures elsewhere { P.tells → SameElsewhere dir.now (P.files self.old.depot) (P.files self.new.depot) }
        ensures disk_cause { TellsDisk result → DepotFailed (⟦<Self as Shown>⟧.span self.old self.new) }
        ensures clock_cause { result ≡ OutsideClock → ClockFailed (⟦<Self as Shown>⟧.span self.old self.new) }
        ensures left { IsArchiveRefusal result → IsBeforeInputs (⟦<Self as Shown>⟧.span self.old self.new) }
        ensures same_desk { self.new.desk ≡ self.old.desk }
        ensures same_sink { self.new.sink ≡ self.old.sink }
        ensures rest { KeepsTheRest (⟦<Self as Shown>⟧.span self.old self.new) }
    {
        let mut keeper = match open_archive(alloc, self.namer, &mut self.depot, dir) {
            Ok(keeper) => keeper,
            Err(refusal) => return refusal,
        };
        let answer = self.load_lines(alloc, &mut keeper, lines);
        close_archive(&mut self.depot, dir, keeper);
        answer
    }

    /// Loads the jobs of a job file into the archive in a folder. The job file is tested first; then the archive is
    /// opened; then all inputs are opened, each after a look at the clock, before any is loaded.
    pub fn load(&mut self, alloc: Global, dir: &str, jobs: &str) -> Answer
        ensures loads { Loads dir.now jobs.now (⟦<Self as Shown>⟧.span self.old self.new) result }
        ensures same_sink { self.new.sink ≡ self.old.sink }
        ensures rest { KeepsTheRest (⟦<Self as Shown>⟧.span self.old self.new) }
    {
        match read_jobs(alloc, &mut self.desk, jobs) {
            Ok(lines) => self.load_jobs(alloc, dir, lines),
            Err(answer) => answer,
        }
    }
}
