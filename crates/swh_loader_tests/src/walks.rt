// What becomes of an input's visit, where another loader adds between.
ghost use Rattle.std.specs.Prelude.{◌≡◌, IfOk, IfSome};
ghost use Rattle.swh_base.specs.Namer.{byte_id};
ghost use Rattle.swh_dedup.specs.Whole.{HasAllThatIsReached};

use crate::desk::{Desk, Second};
use std::alloc::{AllocError, Global};
use std::collections::VecDeque;
use std::test::Fail;
use swh_base::{ByteNamer, Kind, Memory, Name, Shared, Url, VisitKind};
use swh_dedup::Objects;
use swh_fastload::load_source;
use swh_fixtures::{URL, made_archive};
use swh_ingest::{
    self as walk, Destination, Job, Next, Opening, ReadsParts, Turn, Worker, load_parts,
};
use swh_memory::MemorySource;
use swh_model::{Event, EventKind};
use swh_object::Object;
use swh_outside::OpenGate;
use swh_plan::Plan;

// The end of a walk.
#[derive(Clone, Copy, Debug, PartialEq, Eq)]
enum End {
    Full,
    Met(Name),
    Stopped,
}

// A stream, the bodies of what loader 1 adds before the plans of loader 2, the end, how many events are by each, how many
// objects the batches of loader 2 have, and whether `ab` is held.
#[derive(Clone, Copy)]
struct Case<'a> {
    stream: &'a [u8],
    others: &'a [&'a [u8]],
    ends: End,
    theirs: usize,
    ours: usize,
    objects: usize,
    held: bool,
}

// The name that the sum of the bytes gives to `ab` and to `ba`.
const AB: Name = Name {
    kind: Kind::Content,
    id: *b"\0\0\0\0\0\0\0\0\0\0\0\0\0\0\0\0\0\0\0\xc3",
};

const ONE: &[u8] = b"blob\nmark :1\ndata 2\nab";

// A visit is opened and goes on before a batch is sent: what is third is added between the look and the batch.
const CASES: &[Case<'static>] = &[
    Case {
        stream: ONE,
        others: &[],
        ends: End::Full,
        theirs: 0,
        ours: 4,
        objects: 2,
        held: true,
    },
    // A body that comes twice is sent once.
    Case {
        stream: b"blob\nmark :1\ndata 2\nab\nblob\nmark :2\ndata 2\nab",
        others: &[],
        ends: End::Full,
        theirs: 0,
        ours: 4,
        objects: 2,
        held: true,
    },
    // Of two bodies under one name the first is held.
    Case {
        stream: b"blob\nmark :1\ndata 2\nab\nblob\nmark :2\ndata 2\nba",
        others: &[],
        ends: End::Met(AB),
        theirs: 0,
        ours: 4,
        objects: 1,
        held: true,
    },
    // The other loader holds another body before it is looked.
    Case {
        stream: ONE,
        others: &[b"ba"],
        ends: End::Met(AB),
        theirs: 1,
        ours: 3,
        objects: 0,
        held: false,
    },
    // And after it was looked: the batch meets it.
    Case {
        stream: ONE,
        others: &[b"x", b"y", b"ba"],
        ends: End::Met(AB),
        theirs: 3,
        ours: 3,
        objects: 0,
        held: false,
    },
    // The other loader adds the same body after it was looked: the batch has the snapshot alone.
    Case {
        stream: ONE,
        others: &[b"x", b"y", b"ab"],
        ends: End::Full,
        theirs: 3,
        ours: 4,
        objects: 1,
        held: true,
    },
];

// A content.
pub fn content_of(alloc: Global, body: Vec<u8>) -> Result<Object<ByteNamer>, AllocError> {
    match Object::make(alloc, &ByteNamer, Kind::Content, body) {
        Ok(object) => Ok(object),
        Err(_) => Err(AllocError),
    }
}

// A plan of one content.
pub fn content(alloc: Global, body: &[u8]) -> Result<Plan<ByteNamer>, AllocError> {
    let mut objects = Vec::with_capacity(alloc, 1)?;
    objects.push(content_of(alloc, body.to_vec(alloc)?)?)?;
    Ok(Plan::Batch(objects))
}

// Each of these bodies as a plan.
pub fn contents(alloc: Global, bodies: &[&[u8]]) -> Result<VecDeque<Plan<ByteNamer>>, AllocError> {
    let mut plans = Vec::with_capacity(alloc, bodies.len())?;
    for body in bodies {
        plans.push(content(alloc, body)?)?;
    }
    Ok(VecDeque::from_vec(plans))
}

// What a stream makes.
fn made_of(alloc: Global, stream: &[u8]) -> Result<Option<Objects<ByteNamer>>, AllocError>
    ensures { IfOk result (λ made. IfSome made (HasAllThatIsReached byte_id)) }
{
    let path = String::from_str(alloc, "input")?;
    let mut source = MemorySource::new(path, stream.to_vec(alloc)?, 64, Vec::new(alloc));
    match load_source(alloc, &ByteNamer, None, &mut source) {
        Ok(made) => Ok(Some(made)),
        Err(_) => Ok(None),
    }
}

// The way that gives what was made as one part.
#[derive(Clone, Copy, Debug)]
struct Whole;

impl ReadsParts<Option<Objects<ByteNamer>>, Next<ByteNamer, ()>> for Whole {
    ghost use Rattle.std.specs.Prelude.{IfOk, IfSome};
    ghost use Rattle.swh_base.specs.Namer.{byte_id};
    ghost use Rattle.swh_dedup.specs.Whole.{HasAllThatIsReached};
    ghost use Rattle.swh_ingest.specs.Parts.{IsWhole};

    ghost takes = { λ r made. IfSome made (HasAllThatIsReached byte_id) };

    ghost gives = { λ r made found now. IfOk found (IsWhole byte_id) };

    ghost left = { λ r made. 0 };

    fn next(&self, made: &mut Option<Objects<ByteNamer>>) -> Result<Next<ByteNamer, ()>, Memory> {
        match made.take() {
            Some(made) => Ok(Next::Last(made)),
            None => Err(Memory),
        }
    }

    fn share(&self, _made: &mut Option<Objects<ByteNamer>>, _name: &Name, _body: Shared<u8>) {}
}

// Loads what was made, as a visit of this origin.
fn load_made<S, P: Destination<Plan<ByteNamer>, S>>(
    alloc: Global,
    destination: &P,
    desk: &mut S,
    origin: &Url,
    made: Objects<ByteNamer>,
) -> End
    requires fits { P.fits destination.now }
    requires number { ((P.protocol destination.now).known desk.old).number ≡ 2 }
    requires whole { HasAllThatIsReached byte_id made }
{
    let worker = Worker {
        by: 2,
        gate: &OpenGate,
        number: 0,
    };
    let turn = Turn {
        worker: &worker,
        job: 0,
    };
    let job = Job {
        origin,
        kind: VisitKind::Fast,
        date: 1_000_000_000,
        opening: Opening::Found,
        read: Whole,
    };
    match load_parts(alloc, destination, desk, &turn, &job, &mut Some(made)) {
        Ok(loaded) => match loaded.end {
            walk::End::Full { .. } => End::Full,
            walk::End::Met(name) => End::Met(name),
            _ => End::Stopped,
        },
        Err(_) => End::Stopped,
    }
}

// How many events are by this loader.
fn events_by(history: &[Event], by: u32) -> usize {
    history.iter().filter(|event| event.by == by).count()
}

// How many objects the batches of loader 2 have.
pub fn objects_in(history: &[Event]) -> usize {
    let mut count: usize = 0;
    for event in history {
        if let EventKind::Batch(entries) = &event.what {
            if event.by == 2 {
                count = count.saturating_add(entries.as_slice().len());
            }
        }
    }
    count
}

fn holds_ab(desk: &Desk) -> bool {
    match desk.keeper.store().get(&AB) {
        Some(entry) => entry.body.as_slice() == b"ab".as_slice(),
        None => false,
    }
}

// Says whether a walk ends so.
fn ends_so(
    alloc: Global,
    desk: &mut Desk,
    case: &Case<'_>,
    made: Objects<ByteNamer>,
) -> Result<bool, AllocError>
    requires { HasAllThatIsReached byte_id made }
{
    let Ok(origin) = Url::new(alloc, URL) else {
        return Ok(false);
    };
    let end = load_made::<Desk, Second>(alloc, &Second, desk, &origin, made);
    let held = holds_ab(desk);
    let history = desk.keeper.history();
    Ok(
        end == case.ends
            && events_by(history, 1) == case.theirs
            && events_by(history, 2) == case.ours
            && objects_in(history) == case.objects
            && held == case.held,
    )
}

// Says whether a case comes out, over an archive of its own.
fn comes_out(alloc: Global, case: &Case<'_>) -> Result<bool, AllocError> {
    let Some(made) = made_of(alloc, case.stream)? else {
        return Ok(false);
    };
    let others = contents(alloc, case.others)?;
    let Ok(keeper) = made_archive(alloc, ByteNamer, &[], &[]) else {
        return Ok(false);
    };
    let mut desk = Desk { keeper, others };
    let so = ends_so(alloc, &mut desk, case, made);
    let Desk {
        keeper,
        others: _others,
    } = desk;
    let (_store, _ledger) = keeper.close();
    so
}

#[test]
fn visits_end_among_the_events_of_another(rt: HostRuntime) -> Result<(), Fail> {
    let alloc = rt.alloc();
    for case in CASES {
        assert!(rt; comes_out(alloc, case)?);
    }
    Ok(())
}
