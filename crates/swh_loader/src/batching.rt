// A load of a batch with its refs, which are read part by part: what is new of its objects is sent while it is read.
ghost use Rattle.std.specs.Prelude.{◌≡◌, ℕ, List, IfOk, IfSome, IsSome};
ghost use Rattle.swh_base.specs.declared.entry.Entry.{Entry};
ghost use Rattle.swh_base.specs.declared.visit.VisitKind.TheVariants.{Batch};
ghost use Rattle.swh_outside.specs.Views.{disks, sources};
ghost use Rattle.swh_outside.specs.declared.fault.Opened.TheVariants.{Found as Here};
ghost use Rattle.swh_batchread.specs.Giving.{GoesOn, IsAtStart};
ghost use Rattle.swh_ingest.specs.Owning.{attempt};
ghost use Rattle.swh_ingest.specs.Parts.{IsMore};
ghost use Rattle.swh_inputs.specs.Batching.{AreQuiet, BatchCameOn, BatchMayGoOn, IsNextOfBatch};
ghost use Rattle.swh_inputs.specs.Parts.{folders, parts, IsSameSource};
ghost use Rattle.swh_inputs.specs.Reading.{IsReadFault};
ghost use Rattle.swh_inputs.specs.declared.input.Input.TheVariants.{Batch as BatchPair};
ghost use Rattle.swh_loader.specs.Leaving.{IsLoadOf};

use crate::end::Loaded;
use crate::outcome::outcome_of;
use crate::task::Task;
use swh_base::{Memory, Name, Namer, Shared, VisitKind};
use swh_batchread::BatchParts;
use swh_fastlex::Window;
use swh_fastread::Lent;
use swh_ingest::{ByParts, Job, LoadFault, Next, Opening, Stop};
use swh_inputs::{BatchByParts, BatchInput, InputFault, next_of_batch};
use swh_keeper::Keeper;
use swh_keeperload::load_kept_parts;
use swh_outside::{Disk, Folder, Gate, Source};

/// Loads the batch and the refs of an input of which nothing was read.
fn load_pair<N: Namer, D: Disk, S: Source, F: Folder, G: Gate>(
    task: &Task<N, G>,
    keeper: &mut Keeper<N, D>,
    input: &mut BatchInput<N, S>,
) -> Result<Loaded, LoadFault>
    requires { IsAtStart N.id_of input.old.parts }
    ensures load { IsLoadOf N.id_of (parts (sources S.tells S.left S.faults S.path)
        (folders F.tells F.holds F.faults F.opened_at)) (disks D.tells D.file D.faults)
        (attempt task.now.turn.now.worker.now.by task.now.origin.now Batch task.now.date)
        (BatchPair (Here input.old.objects.now) (Here input.old.refs.now))
        (BatchPair (Here input.new.objects.now) (Here input.new.refs.now)) keeper.old keeper.new result }
    ensures same_reference { input.new.objects.ghost_name ≡ input.old.objects.ghost_name }
    ensures same_refs_reference { input.new.refs.ghost_name ≡ input.old.refs.ghost_name }
{
    let alloc = task.alloc;
    let namer = task.namer;
    let load = Job {
        origin: task.origin,
        kind: VisitKind::Batch,
        date: task.date,
        opening: Opening::Found,
        read: ByParts {
            said: BatchByParts,
            call: |input: &mut BatchInput<N, S>| -> Result<Next<N, InputFault>, Memory>
                requires { BatchMayGoOn input.old.parts }
                ensures given { (source : _) (others : _) (given : List Entry)
                    → GoesOn N.id_of (sources S.tells S.left S.faults S.path) source others given
                    input.old.parts input.old.objects.now input.old.refs.now
                    → IfOk result (IsNextOfBatch N.id_of (sources S.tells S.left S.faults S.path) source others given
                    input.new.parts input.new.objects.now input.new.refs.now) }
                ensures quiet { (source : _) (others : _) (given : List Entry)
                    → GoesOn N.id_of (sources S.tells S.left S.faults S.path) source others given
                    input.old.parts input.old.objects.now input.old.refs.now
                    → (IsReadFault result → ⊥) → AreQuiet (sources S.tells S.left S.faults S.path) source others
                    input.new.objects.now input.new.refs.now }
                ensures on { IfOk result (λ next. IsMore next → BatchCameOn input.old.parts input.new.parts) }
                ensures same_reference { input.new.objects.ghost_name ≡ input.old.objects.ghost_name }
                ensures same_refs_reference { input.new.refs.ghost_name ≡ input.old.refs.ghost_name }
                ensures same { IsSameSource (sources S.tells S.left S.faults S.path)
                    input.old.objects.now input.new.objects.now }
                ensures same_refs { IsSameSource (sources S.tells S.left S.faults S.path)
                    input.old.refs.now input.new.refs.now }
            { next_of_batch(alloc, namer, input) },
            share: |input: &mut BatchInput<N, S>, name: &Name, body: Shared<u8>|
                ensures { input.new ≡ input.old }
            { input.parts.share(name, body) },
        },
    };
    outcome_of(load_kept_parts(alloc, keeper, task.turn, &load, input))
}

/// Loads what two sources have left, puts what it came to, puts the source of the batch back, and hands that of the refs back.
fn load_lent_pair<'a, 'b, N: Namer, D: Disk, S: Source, F: Folder, G: Gate>(
    task: &Task<N, G>,
    keeper: &mut Keeper<N, D>,
    objects: &'a mut S,
    refs: &'b mut S,
    outcome: &mut Result<Loaded, LoadFault>,
    back: &mut Option<Lent<'a, S>>,
) -> Lent<'b, S>
    ensures load { IfSome back.new (λ back. IsLoadOf N.id_of (parts (sources S.tells S.left S.faults S.path)
        (folders F.tells F.holds F.faults F.opened_at)) (disks D.tells D.file D.faults)
        (attempt task.now.turn.now.worker.now.by task.now.origin.now Batch task.now.date)
        (BatchPair (Here objects.old) (Here refs.old)) (BatchPair (Here back.source.now) (Here result.source.now))
        keeper.old keeper.new outcome.new) }
    ensures is_back { IsSome back.new }
    ensures same_objects { IfSome back.new (λ back. back.source.ghost_name ≡ objects.entry.ghost_name) }
    ensures same_refs { result.source.ghost_name ≡ refs.entry.ghost_name }
{
    let alloc = task.alloc;
    let Ok(window) = Window::new(alloc) else {
        *outcome = Err(LoadFault {
            visit: 0,
            why: Stop::Memory,
        });
        *back = Some(Lent { source: objects });
        return Lent { source: refs };
    };
    let mut input = BatchInput {
        parts: BatchParts::new(alloc, window),
        objects,
        refs,
    };
    *outcome = load_pair::<N, D, S, F, G>(task, keeper, &mut input);
    let BatchInput {
        parts: _,
        objects,
        refs,
    } = input;
    *back = Some(Lent { source: objects });
    Lent { source: refs }
}

/// The same, with the source of the batch handed back. A caller knows of one source alone that it is handed back.
fn load_lent_objects<'a, N: Namer, D: Disk, S: Source, F: Folder, G: Gate>(
    task: &Task<N, G>,
    keeper: &mut Keeper<N, D>,
    objects: &'a mut S,
    refs: &mut S,
    outcome: &mut Result<Loaded, LoadFault>,
) -> Lent<'a, S>
    ensures load { IsLoadOf N.id_of (parts (sources S.tells S.left S.faults S.path)
        (folders F.tells F.holds F.faults F.opened_at)) (disks D.tells D.file D.faults)
        (attempt task.now.turn.now.worker.now.by task.now.origin.now Batch task.now.date)
        (BatchPair (Here objects.old) (Here refs.old)) (BatchPair (Here result.source.now) (Here refs.new))
        keeper.old keeper.new outcome.new }
    ensures same_objects { result.source.ghost_name ≡ objects.entry.ghost_name }
{
    let mut back = None;
    let Lent { source: _ } = load_lent_pair::<N, D, S, F, G>(
        task, keeper, objects, refs, outcome, &mut back,
    );
    match back {
        Some(objects) => objects,
        None => unreachable!(),
    }
}

/// Loads a batch and its refs that were found, as a new visit of their origin, and sends what is new of the objects while
/// they are read. Of what is held the reader keeps the held body.
pub fn load_batch<N: Namer, D: Disk, S: Source, F: Folder, G: Gate>(
    task: &Task<N, G>,
    keeper: &mut Keeper<N, D>,
    objects: &mut S,
    refs: &mut S,
) -> Result<Loaded, LoadFault>
    ensures { IsLoadOf N.id_of (parts (sources S.tells S.left S.faults S.path)
        (folders F.tells F.holds F.faults F.opened_at)) (disks D.tells D.file D.faults)
        (attempt task.now.turn.now.worker.now.by task.now.origin.now Batch task.now.date)
        (BatchPair (Here objects.old) (Here refs.old)) (BatchPair (Here objects.new) (Here refs.new))
        keeper.old keeper.new result }
{
    let mut outcome = Err(LoadFault {
        visit: 0,
        why: Stop::Memory,
    });
    let Lent { source: _ } = load_lent_objects::<N, D, S, F, G>(
        task,
        keeper,
        objects,
        refs,
        &mut outcome,
    );
    outcome
}
