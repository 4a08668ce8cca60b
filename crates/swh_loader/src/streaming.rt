// A load of a stream, which is read part by part: what is new of its objects is sent while it is read.
ghost use Rattle.std.specs.Prelude.{◌≡◌, ◌≤◌, ◌^◌, ℕ, List, IfOk, IfSome};
ghost use Rattle.swh_base.specs.Text.{IsRef};
ghost use Rattle.swh_base.specs.declared.entry.Entry.{Entry};
ghost use Rattle.swh_base.specs.declared.visit.VisitKind.TheVariants.{Fast};
ghost use Rattle.swh_outside.specs.Views.{disks, sources};
ghost use Rattle.swh_outside.specs.declared.fault.Opened.TheVariants.{Found as Here};
ghost use Rattle.swh_fastload.specs.Giving.{GoesOn};
ghost use Rattle.swh_ingest.specs.Owning.{attempt};
ghost use Rattle.swh_ingest.specs.Parts.{IsMore};
ghost use Rattle.swh_inputs.specs.Reading.{IsReadFault};
ghost use Rattle.swh_inputs.specs.Parts.{folders, parts};
ghost use Rattle.swh_inputs.specs.Streaming.{CameOn, IsNextOf, MayGoOn};
ghost use Rattle.swh_inputs.specs.declared.input.Input.TheVariants.{Fast as FastInput};
ghost use Rattle.swh_loader.specs.Leaving.{IsLoadOf};

use crate::end::Loaded;
use crate::outcome::outcome_of;
use crate::task::Task;
use swh_base::{Bytes, Memory, Name, Namer, Shared, VisitKind};
use swh_fastlex::Window;
use swh_fastload::StreamParts;
use swh_fastread::Lent;
use swh_ingest::{ByParts, Job, LoadFault, Next, Opening, Stop};
use swh_inputs::{InputFault, StreamByParts, next_of_stream};
use swh_keeper::Keeper;
use swh_keeperload::load_kept_parts;
use swh_outside::{Disk, Folder, Gate, Source};

/// Loads what a source has left, puts what it came to, and hands the source back.
fn load_lent<'a, N: Namer, D: Disk, S: Source, F: Folder, G: Gate>(
    task: &Task<N, G>,
    keeper: &mut Keeper<N, D>,
    head: &Option<Bytes>,
    source: &'a mut S,
    outcome: &mut Result<Loaded, LoadFault>,
) -> Lent<'a, S>
    requires { IfSome head.now IsRef }
    ensures load { IsLoadOf N.id_of (parts (sources S.tells S.left S.faults S.path)
        (folders F.tells F.holds F.faults F.opened_at)) (disks D.tells D.file D.faults)
        (attempt task.now.turn.now.worker.now.by task.now.origin.now Fast task.now.date)
        (FastInput (Here source.old) head.now) (FastInput (Here result.source.now) head.now)
        keeper.old keeper.new outcome.new }
    ensures same_reference { result.source.ghost_name ≡ source.entry.ghost_name }
{
    let alloc = task.alloc;
    let Ok(window) = Window::new(alloc) else {
        *outcome = Err(LoadFault {
            visit: 0,
            why: Stop::Memory,
        });
        return Lent { source };
    };
    let load = Job {
        origin: task.origin,
        kind: VisitKind::Fast,
        date: task.date,
        opening: Opening::Found,
        read: ByParts {
            said: StreamByParts,
            call: |parts: &mut StreamParts<N, Lent<S>>| -> Result<Next<N, InputFault>, Memory>
                requires { IfSome head.now IsRef }
                ensures given { (text : List ℕ) (faults : ℕ) (path : List ℕ) (given : List Entry)
                    → GoesOn N.id_of S.tells text faults path given parts.old
                    → IfOk result (IsNextOf N.id_of S.tells head.entry.now text faults path given parts.new) }
                ensures quiet { (IsReadFault result → ⊥)
                    → parts.new.standing.place.faults ≡ parts.old.standing.place.faults }
                ensures on { IfOk result (λ next. IsMore next → CameOn parts.old parts.new) }
                ensures within { parts.old.standing.place.at ≤ 2 ^ 33 }
                ensures same_path { parts.new.standing.place.path ≡ parts.old.standing.place.path }
                ensures later { parts.old.standing.place.faults ≤ parts.new.standing.place.faults }
            { next_of_stream(alloc, parts, head) },
            share: |parts: &mut StreamParts<N, Lent<S>>, name: &Name, body: Shared<u8>|
                ensures { parts.new ≡ parts.old }
            { parts.share(name, body) },
        },
    };
    let mut parts = StreamParts::new(alloc, window, *task.namer, Lent { source });
    *outcome = outcome_of(load_kept_parts(alloc, keeper, task.turn, &load, &mut parts));
    parts.close()
}

/// Loads a stream that was found, as a new visit of its origin, and sends what is new of its objects while it is read. Of
/// what is held its reader keeps the held body.
pub fn load_stream<N: Namer, D: Disk, S: Source, F: Folder, G: Gate>(
    task: &Task<N, G>,
    keeper: &mut Keeper<N, D>,
    head: &Option<Bytes>,
    source: &mut S,
) -> Result<Loaded, LoadFault>
    requires { IfSome head.now IsRef }
    ensures { IsLoadOf N.id_of (parts (sources S.tells S.left S.faults S.path)
        (folders F.tells F.holds F.faults F.opened_at)) (disks D.tells D.file D.faults)
        (attempt task.now.turn.now.worker.now.by task.now.origin.now Fast task.now.date)
        (FastInput (Here source.old) head.now) (FastInput (Here source.new) head.now)
        keeper.old keeper.new result }
{
    let mut outcome = Err(LoadFault {
        visit: 0,
        why: Stop::Memory,
    });
    let Lent { source: _ } = load_lent::<N, D, S, F, G>(task, keeper, head, source, &mut outcome);
    outcome
}
