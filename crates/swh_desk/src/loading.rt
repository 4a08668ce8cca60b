// A load of the stream in the body of a request.
ghost use Rattle.std.specs.Prelude.{◌≡◌, ◌≤◌};
ghost use Rattle.swh_base.specs.declared.visit.VisitKind.TheVariants.{Fast};
ghost use Rattle.swh_outside.specs.Views.{disks};
ghost use Rattle.swh_loader.specs.Report.{detail_limit, outcome_room};
ghost use Rattle.swh_desk.specs.Posted.{IsPosted};

use crate::body::{BodySource, NoFolder};
use std::alloc::Global;
use swh_base::{Namer, Url};
use swh_keeper::Keeper;
use swh_loader::{Input, Job, LoadFault, Loaded, Turn, Worker, load_one};
use swh_outside::{Disk, OpenGate, Opened};

/// The number of the one worker.
const WORKER: u32 = 1;

/// An origin, and what the load of a stream that was posted for it came to.
#[derive(Drop)]
pub struct Posted {
    pub origin: Url,
    pub outcome: Result<Loaded, LoadFault>,
}

/// Loads the stream in a body, as a new visit of an origin.
pub fn load_posted<N: Namer, D: Disk>(
    alloc: Global,
    namer: &N,
    keeper: &mut Keeper<N, D>,
    origin: Url,
    body: &[u8],
    date: u64,
) -> Posted
    ensures origin { result.origin ≡ origin }
    ensures load { IsPosted N.id_of (disks D.tells D.file D.faults) date body.now origin keeper.old keeper.new result.outcome }
    ensures short { outcome_room result.outcome ≤ detail_limit Fast }
{
    let mut job: Job<BodySource, NoFolder> = Job {
        origin,
        input: Input::Fast {
            stream: Opened::Found(BodySource::new(body)),
            head: None,
        },
    };
    let worker = Worker {
        by: WORKER,
        gate: &OpenGate,
        number: WORKER,
    };
    let turn = Turn {
        worker: &worker,
        job: 1,
    };
    let outcome = load_one(alloc, namer, keeper, &turn, &mut job, date);
    let Job {
        origin,
        input: _input,
    } = job;
    Posted { origin, outcome }
}
