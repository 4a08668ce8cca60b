// One load: what a job's input is, and how the visit ends.
ghost use Rattle.std.specs.Prelude.{◌≡◌, ◌≤◌, Some, ℕ, IfOk, IfErr};
ghost use Rattle.swh_outside.specs.Views.{disks, sources};
ghost use Rattle.swh_ingest.specs.Owning.{attempt};
ghost use Rattle.swh_ingest.specs.Parts.{IsWhole};
ghost use Rattle.swh_keeperload.specs.Loading.{AddsVisit, EndsVisit, IsHeldBack, MakesVisitCalls, NoCountFell, Stops};
ghost use Rattle.swh_inputs.specs.Opening.{kind_of};
ghost use Rattle.swh_inputs.specs.Parts.{HasGoodHead, IsQuiet, IsSameInput, folders, parts};
ghost use Rattle.swh_inputs.specs.Reading.{IsRead, IsReadFault, MayBeRead};
ghost use Rattle.swh_loader.specs.Ending.{IsJobEnd, IsQuietEnd, held_bodies, statuses_of};
ghost use Rattle.swh_loader.specs.Leaving.{AreAllowed, HeardNoFailure, IsLoadOf, IsSameJob};
ghost use Rattle.swh_loader.specs.Report.{detail_limit, end_room};

use crate::batching::load_batch;
use crate::end::Loaded;
use crate::job::Job;
use crate::outcome::outcome_of;
use crate::streaming::load_stream;
use crate::task::Task;
use std::alloc::Global;
use swh_base::{Memory, Name, Namer, Shared};
use swh_ingest::{self as walk, ByParts, LoadFault, Next, Turn};
use swh_inputs::{Input, InputFault, WholeInput, read_input};
use swh_keeper::Keeper;
use swh_keeperload::load_kept_parts;
use swh_outside::{Disk, Folder, Gate, Opened, Source};

/// Loads the input of an origin, of which one part is all, as a new visit of it.
fn load_whole<N: Namer, D: Disk, S: Source, F: Folder, G: Gate>(
    task: &Task<N, G>,
    keeper: &mut Keeper<N, D>,
    input: &mut Input<S, F>,
) -> Result<Loaded, LoadFault>
    requires { HasGoodHead input.old }
    ensures { IsLoadOf N.id_of (parts (sources S.tells S.left S.faults S.path)
        (folders F.tells F.holds F.faults F.opened_at)) (disks D.tells D.file D.faults)
        (attempt task.now.turn.now.worker.now.by task.now.origin.now (kind_of input.old) task.now.date)
        input.old input.new keeper.old keeper.new result }
{
    let alloc = task.alloc;
    let namer = task.namer;
    let load = walk::Job {
        origin: task.origin,
        kind: input.kind(),
        date: task.date,
        opening: input.opening(),
        read: ByParts {
            said: WholeInput,
            call: |input: &mut Input<S, F>| -> Result<Next<N, InputFault>, Memory>
                requires { MayBeRead input.old }
                ensures read { IfOk result (IsRead N.id_of (parts (sources S.tells S.left S.faults S.path)
                    (folders F.tells F.holds F.faults F.opened_at)) input.old input.new) }
                ensures whole { IfOk result (IsWhole N.id_of) }
                ensures same { IsSameInput (parts (sources S.tells S.left S.faults S.path)
                    (folders F.tells F.holds F.faults F.opened_at)) input.old input.new }
                ensures quiet { (IsReadFault result → ⊥) → IsQuiet (parts (sources S.tells S.left S.faults S.path)
                    (folders F.tells F.holds F.faults F.opened_at)) input.old input.new }
            { read_input(alloc, namer, input) },
            share: |input: &mut Input<S, F>, _name: &Name, _body: Shared<u8>|
                ensures { input.new ≡ input.old }
            {},
        },
    };
    outcome_of(load_kept_parts(alloc, keeper, task.turn, &load, input))
}

/// Loads the input of an origin, as a new visit of it. It is read part by part, and what is new of its objects is sent while it
/// is read. A stream gives many parts, and so does a batch with its refs; a folder gives one.
pub fn load_one<N: Namer, D: Disk, S: Source, F: Folder, G: Gate>(
    alloc: Global,
    namer: &N,
    keeper: &mut Keeper<N, D>,
    turn: &Turn<G>,
    job: &mut Job<S, F>,
    date: u64,
) -> Result<Loaded, LoadFault>
    // A head is a ref.
    requires { HasGoodHead job.old.input }
    // The visit is the next of its origin, and its end is the one told. Nothing that was held is lost.
    ensures ended { IfOk result (λ loaded. EndsVisit
        (attempt turn.now.worker.now.by job.old.origin (kind_of job.old.input) date) keeper.old keeper.new
        loaded.visit (statuses_of loaded.end)) }
    // The end says what the input means, and what is held.
    ensures end { IfOk result (λ loaded. IsJobEnd N.id_of (parts (sources S.tells S.left S.faults S.path)
        (folders F.tells F.holds F.faults F.opened_at)) (held_bodies keeper.new) job.old.input job.new.input loaded.end) }
    // Nothing fails unheard: unless the end tells that a part of the input failed, none did.
    ensures quiet { IfOk result (λ loaded. IsQuietEnd (parts (sources S.tells S.left S.faults S.path)
        (folders F.tells F.holds F.faults F.opened_at)) job.old.input job.new.input loaded.end) }
    // Where it stops none failed either, unless it stops as the visit was to be marked as failed.
    ensures heard { IfErr result (HeardNoFailure N.id_of (parts (sources S.tells S.left S.faults S.path)
        (folders F.tells F.holds F.faults F.opened_at)) (disks D.tells D.file D.faults)
        (attempt turn.now.worker.now.by job.old.origin (kind_of job.old.input) date)
        job.old.input job.new.input keeper.new) }
    // Its report has a bound by the kind of the input.
    ensures short { IfOk result (λ loaded. end_room loaded.end ≤ detail_limit (kind_of job.old.input)) }

    // Whatever it answers, it adds its visit's events alone, with nothing but what the input may give before its reading
    // stops.
    ensures adds { AddsVisit (AreAllowed N.id_of (parts (sources S.tells S.left S.faults S.path)
        (folders F.tells F.holds F.faults F.opened_at)) job.old.input)
        (attempt turn.now.worker.now.by job.old.origin (kind_of job.old.input) date)
        keeper.old.history keeper.new.history }
    // The device calls that it makes: those of its events, in order; where a disk fails, up to one of the next event.
    ensures calls { D.tells → MakesVisitCalls N.id_of (disks D.tells D.file D.faults)
        (AreAllowed N.id_of (parts (sources S.tells S.left S.faults S.path)
        (folders F.tells F.holds F.faults F.opened_at)) job.old.input)
        (attempt turn.now.worker.now.by job.old.origin (kind_of job.old.input) date) keeper.old keeper.new }
    // Where a disk had failed before, it opens no visit and changes nothing.
    ensures wounded { (n : ℕ) → keeper.old.wounded ≡ Some n → IsHeldBack keeper.old keeper.new result }
    // Why it stopped, and what is left then.
    ensures stops { IfErr result (Stops N.id_of (disks D.tells D.file D.faults)
        (AreAllowed N.id_of (parts (sources S.tells S.left S.faults S.path)
        (folders F.tells F.holds F.faults F.opened_at)) job.old.input)
        (attempt turn.now.worker.now.by job.old.origin (kind_of job.old.input) date) keeper.old keeper.new) }
    // The counts of faults, and the job.
    ensures later { NoCountFell (disks D.tells D.file D.faults) keeper.old keeper.new }
    ensures same { IsSameJob (parts (sources S.tells S.left S.faults S.path)
        (folders F.tells F.holds F.faults F.opened_at)) job.old job.new }
{
    let task = Task {
        alloc,
        namer,
        turn,
        origin: &job.origin,
        date,
    };
    match &mut job.input {
        Input::Fast { stream, head } => match stream {
            Opened::Found(source) => load_stream::<N, D, S, F, G>(&task, keeper, &*head, source),
            _ => load_whole(&task, keeper, &mut job.input),
        },
        Input::Batch { objects, refs } => match objects {
            Opened::Found(objects) => match refs {
                Opened::Found(refs) => load_batch::<N, D, S, F, G>(&task, keeper, objects, refs),
                _ => load_whole(&task, keeper, &mut job.input),
            },
            _ => load_whole(&task, keeper, &mut job.input),
        },
        Input::Dir { .. } => load_whole(&task, keeper, &mut job.input),
    }
}
