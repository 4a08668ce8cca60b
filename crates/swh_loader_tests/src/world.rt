// Loads over memory, and what they leave.
ghost use Rattle.swh_inputs.specs.Parts.{HasGoodHead};

use std::alloc::Global;
use swh_base::{Kind, Name, Namer, Url};
use swh_fixtures::Archive;
use swh_loader::{Input, Job, LoadFault, Loaded, Stop, Turn, Worker, load_one};
use swh_memory::{MemoryFolder, MemorySource};
use swh_model::{Event, EventKind};
use swh_outside::OpenGate;

/// Loads an input of an origin, whose head, where it has one, is a ref.
pub fn load<N: Namer>(
    alloc: Global,
    namer: &N,
    keeper: &mut Archive<N>,
    url: &str,
    input: Input<MemorySource, MemoryFolder>,
) -> Result<Loaded, LoadFault>
    requires { HasGoodHead input }
{
    load_by(alloc, namer, keeper, 1, url, input)
}

/// The same by the loader of this number.
pub fn load_by<N: Namer>(
    alloc: Global,
    namer: &N,
    keeper: &mut Archive<N>,
    by: u32,
    url: &str,
    input: Input<MemorySource, MemoryFolder>,
) -> Result<Loaded, LoadFault>
    requires { HasGoodHead input }
{
    let Ok(origin) = Url::new(alloc, url) else {
        return Err(LoadFault {
            visit: 0,
            why: Stop::Memory,
        });
    };
    let mut job = Job { origin, input };
    let date = 1_000_000_000;
    let worker = Worker {
        by,
        gate: &OpenGate,
        number: 0,
    };
    let turn = Turn {
        worker: &worker,
        job: 0,
    };
    let answer = load_one(alloc, namer, keeper, &turn, &mut job, date);
    let Job {
        origin: _origin,
        input: _input,
    } = job;
    answer
}

/// Says whether this body is held.
pub fn holds<N: Namer>(keeper: &Archive<N>, kind: Kind, id: [u8; 20], body: &[u8]) -> bool {
    match keeper.store().get(&Name { kind, id }) {
        Some(entry) => entry.body.as_slice() == body,
        None => false,
    }
}

/// How many objects the batches of a history have.
pub fn objects_in(history: &[Event]) -> usize {
    let mut count: usize = 0;
    for event in history {
        if let EventKind::Batch(entries) = &event.what {
            count = count.saturating_add(entries.as_slice().len());
        }
    }
    count
}
